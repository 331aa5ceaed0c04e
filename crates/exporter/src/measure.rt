// The pass before anything is written: whether every statement and every name of one can be read, and how long the file is.
ghost use Rattle.std.specs.Prelude.{cond, ◌≡◌, ◌+◌, ◌*◌, ◌-◌, ◌≤◌, length};
ghost use Rattle.store.specs.Tables.{offset_at};
ghost use Rattle.store.specs.Reading.{name_window};
ghost use Rattle.store.specs.Soundness.{is_live};
ghost use Rattle.table.specs.Held.{ResourceHeld};
ghost use Rattle.line_order.specs.Rests.{line_in, name_from};
ghost use Rattle.exporter.specs.Legible.{Readable, bytes_if, name_legible, line_legible, statement_legible, legible_up_to, live_bytes};

use store::{Counters, Refusal, ResourceId, StatementId};

// The name of resource y and the blank after it, counted on; refused 9 if it cannot be read, as each count here.
fn add_name(
    resources: &[u32],
    text: &[u8],
    end: u32,
    y: ResourceId,
    size: u32,
) -> Result<u32, Refusal>
    requires resource_held { ResourceHeld resources.now y.0 }
    requires end_in_bounds { (end ≤ length text.now) × (size ≤ 2 + 2 * name_window) }
    ensures { result ≡ bytes_if (name_legible text.now end (offset_at resources.now y.0))
        (size + length (name_from text.now (offset_at resources.now y.0)) + 1) }
{
    let from = table::word::offset_at(resources, y);
    let span = table::word::span_at(text, end, from)?;
    Ok(size + span.size + 1)
}

// The bytes of statement n's line, live or not.
fn line_size(
    c: Counters,
    resources: &[u32],
    statements: &[u32],
    text: &[u8],
    n: StatementId,
) -> Result<u32, Refusal>
    requires readable { Readable c resources.now statements.now text.now }
    requires le_n { (1 ≤ n.0) × (n.0 ≤ c.statements) }
    ensures { result ≡ bytes_if (line_legible c resources.now statements.now text.now n.0)
        (length (line_in resources.now statements.now text.now n.0)) }
{
    let x = table::word::triple_at(statements, n);
    if !table::known(c.resources, x) {
        return Err(Refusal::Damaged);
    }
    let a = add_name(resources, text, c.text, x.subject, 2)?;
    let b = add_name(resources, text, c.text, x.predicate, a)?;
    add_name(resources, text, c.text, x.object, b)
}

// What statement n adds to the file: nothing if it is retracted.
fn added(
    c: Counters,
    resources: &[u32],
    statements: &[u32],
    text: &[u8],
    n: StatementId,
) -> Result<u32, Refusal>
    requires readable { Readable c resources.now statements.now text.now }
    requires le_n { (1 ≤ n.0) × (n.0 ≤ c.statements) }
    ensures { result ≡ bytes_if (statement_legible c resources.now statements.now text.now n.0)
        (cond (is_live statements.now (n.0 - 1))
        (length (line_in resources.now statements.now text.now n.0)) 0) }
{
    let flag = table::word::flag_at(statements, n);
    if flag > 1 {
        return Err(Refusal::Damaged);
    }
    let size = line_size(c, resources, statements, text, n)?;
    if flag == 1 {
        return Ok(0);
    }
    Ok(size)
}

// The bytes of the file, or refused 9 at a statement that cannot be read.
pub fn measure(
    c: Counters,
    resources: &[u32],
    statements: &[u32],
    text: &[u8],
) -> Result<u32, Refusal>
    requires { Readable c resources.now statements.now text.now }
    ensures { result ≡ bytes_if (legible_up_to c resources.now statements.now text.now c.statements)
        (live_bytes resources.now statements.now text.now c.statements) }
{
    let mut bytes = 0;
    // The first `read` statements can be read, and the live ones' lines have `bytes` bytes.
    for read in 0..c.statements {
        let size = added(c, resources, statements, text, StatementId(read + 1))?;
        bytes += size;
    }
    Ok(bytes)
}
