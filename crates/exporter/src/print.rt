// The lines, sorted and written. Each function asks that the statements and their names can be read, as `measure` has told, and that there
// is room for what it writes.
ghost use Rattle.std.specs.Prelude.{[], ◌∷◌, ◌++◌, ◌≡◌, ◌+◌, ◌*◌, ◌≤◌, ◌<◌, length};
ghost use Rattle.std.proofs.lemmas.List.Edits.{sets};
ghost use Rattle.store.specs.Shared.{below};
ghost use Rattle.store.specs.Soundness.{is_live};
ghost use Rattle.store.specs.Tables.{statement_words, offset_at};
ghost use Rattle.table.specs.Held.{StatementHeld, ResourceHeld};
ghost use Rattle.lines.specs.Export.{join_lines, sort_lines, over, written};
ghost use Rattle.line_order.specs.Rests.{line_in, name_from, Closed, Printable};
ghost use Rattle.line_sort.specs.Sorted.{All, Sortable};
ghost use Rattle.exporter.specs.Legible.{live_bytes};
ghost use Rattle.exporter.specs.Printed.{Wrote, if_live, lines_in, file_in, Ready, FileWritten, print_of};

use store::{Refusal, ResourceId, StatementId};

// Statement n listed after `live` others, if it is live; how many are listed then.
fn list_one(statements: &[u32], n: StatementId, work: &mut [u32], live: usize) -> usize
    requires statement_held { StatementHeld statements.now n.0 }
    requires live_in_bounds { live < length work.old }
    ensures { Wrote work.old live (if_live statements.now n.0) work.new result }
{
    if table::word::flag_at(statements, n) != 0 {
        return live;
    }
    work[live] = n.0;
    live + 1
}

// The numbers of the live statements among the first t, falling, from the first word on; how many there are.
fn fill(statements: &[u32], t: u32, work: &mut [u32]) -> usize
    requires { (statement_words * t ≤ length statements.now) × (t ≤ length work.old) }
    ensures { Wrote work.old 0 (below (is_live statements.now) t) work.new result }
{
    let mut live = 0;
    for i in (0..t).rev() {
        live = list_one(statements, StatementId(i + 1), work, live);
    }
    live
}

// The name of resource y and a blank, from `at` on; where they end.
fn put_name(resources: &[u32], text: &[u8], y: ResourceId, out: &mut [u8], at: usize) -> usize
    requires resource_held { ResourceHeld resources.now y.0 }
    requires closed { Closed text.now (offset_at resources.now y.0) }
    requires y_in_bounds { at + length (name_from text.now (offset_at resources.now y.0) ++ 32 ∷ []) ≤ length out.old }
    ensures { Wrote out.old at (name_from text.now (offset_at resources.now y.0) ++ 32 ∷ [])
        out.new result }
{
    let from = table::word::offset_at(resources, y) as usize;
    let end = find_byte::find(text, from, text.len(), 0);
    let to = at + (end - from);
    out[at..to].copy_from_slice(&text[from..end]);
    out[to] = 32;
    to + 1
}

// The line of statement n, from `at` on; where it ends.
fn put_line(
    resources: &[u32],
    statements: &[u32],
    text: &[u8],
    n: StatementId,
    out: &mut [u8],
    at: usize,
) -> usize
    requires printable { Printable resources.now statements.now text.now n.0 }
    requires n_in_bounds { at + length (line_in resources.now statements.now text.now n.0) ≤ length out.old }
    ensures { Wrote out.old at
        (line_in resources.now statements.now text.now n.0) out.new result }
{
    let x = table::word::triple_at(statements, n);
    let a = put_name(resources, text, x.subject, out, at);
    let b = put_name(resources, text, x.predicate, out, a);
    let d = put_name(resources, text, x.object, out, b);
    out[d] = 46;
    out[d + 1] = 10;
    d + 2
}

// The lines of the statements listed, one after another.
fn put_lines(resources: &[u32], statements: &[u32], text: &[u8], numbers: &[u32], out: &mut [u8])
    requires all { All (Printable resources.now statements.now text.now) numbers.now }
    requires numbers_in_bounds { length (join_lines (lines_in resources.now statements.now text.now numbers.now)) ≤ length out.old }
    ensures { out.new ≡ sets out.old 0
        (join_lines (lines_in resources.now statements.now text.now numbers.now)) }
{
    let mut at = 0;
    // The lines of the numbers before n are written, and end at `at`.
    for n in numbers {
        at = put_line(resources, statements, text, StatementId(*n), out, at);
    }
}

// The lines of the numbered statements, sorted, from the output's first byte on. The numbers are left sorted.
fn put_sorted(
    resources: &[u32],
    statements: &[u32],
    text: &[u8],
    numbers: &mut [u32],
    out: &mut [u8],
)
    requires all { All (Sortable resources.now statements.now text.now) numbers.old }
    requires numbers_in_bounds { length (join_lines (lines_in resources.now statements.now text.now numbers.old)) ≤ length out.old }
    ensures { out.new ≡ over (join_lines (sort_lines
        (lines_in resources.now statements.now text.now numbers.old))) out.old }
{
    line_sort::sort(resources, statements, text, numbers);
    put_lines(resources, statements, text, numbers, out);
}

// The same of the live statements among the first t. The first t working words hold their numbers meanwhile, and are 0 at the end.
fn print_sorted(
    resources: &[u32],
    statements: &[u32],
    text: &[u8],
    t: u32,
    out: &mut [u8],
    work: &mut [u32],
)
    requires ready { Ready resources.now statements.now text.now t }
    requires t_in_bounds { (live_bytes resources.now statements.now text.now t ≤ length out.old) × (t ≤ length work.old) }
    ensures { FileWritten (file_in resources.now statements.now text.now t) t
        out.old work.old out.new work.new }
{
    let words = t as usize;
    let live = fill(statements, t, work);
    put_sorted(resources, statements, text, &mut work[0..live], out);
    table::word::zero(work, 0, words);
}

// The same, refused 11 if the output has fewer than the file's bytes.
pub fn print_file(
    resources: &[u32],
    statements: &[u32],
    text: &[u8],
    t: u32,
    bytes: u32,
    out: &mut [u8],
    work: &mut [u32],
) -> Result<u32, Refusal>
    requires ready { Ready resources.now statements.now text.now t }
    requires bytes_value { (bytes ≡ live_bytes resources.now statements.now text.now t) × (t ≤ length work.old) }
    ensures { written out.new work.new result
        ≡ print_of (file_in resources.now statements.now text.now t) t
        out.old work.old }
{
    if bytes as usize > out.len() {
        return Err(Refusal::ExportSpace);
    }
    print_sorted(resources, statements, text, t, out, work);
    Ok(bytes)
}
