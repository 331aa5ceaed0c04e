// Lines of names, each written at once. Each function answers whether its line was written.
ghost use Rattle.streams.specs.Counts.{IsPrefixLen};

use graph::{Solution, VARIABLES};
use report::output::{append, put};
use store::{Counters, NameSpan, ResourceId, StatementId, StatementRead, Triple};
use streams::{Output, Outputs};
use table::lent::Tables;

// Sixteen names of 255 bytes, each with a tab or a LF.
const LINE: usize = 4096;

// Appends the bytes of the text from `start` on, `size` of them, as far as it has them and there is room.
fn append_text(out: &mut [u8], at: usize, text: &[u8], start: u32, size: u32) -> usize
    ensures { IsPrefixLen result out.new }
{
    let rest = &text[(start as usize).min(text.len())..];
    append(out, at, &rest[..(size as usize).min(rest.len())])
}

// Appends the name of a number. Nothing is appended for a number that has none, which no sound store answers.
fn append_name(out: &mut [u8], at: usize, c: Counters, tables: Tables, n: ResourceId) -> usize
    ensures { IsPrefixLen result out.new }
{
    match table::name_span(c, tables, n) {
        Err(_) => append(out, at, b""),
        Ok(NameSpan { start, size }) => append_text(out, at, tables.text, start, size),
    }
}

// Writes a label and the name of a number to an output, and a LF.
pub fn name(
    rt: &impl Outputs,
    to: Output,
    label: &[u8],
    c: Counters,
    tables: Tables,
    n: ResourceId,
) -> bool {
    let mut out = [0u8; LINE];
    let a = append(&mut out, 0, label);
    let b = append_name(&mut out, a, c, tables, n);
    let d = append(&mut out, b, b"\n");
    put(rt, to, &out[..d])
}

// Appends the tab before the name of variable v; before the first stands none.
pub fn append_tab(out: &mut [u8], at: usize, v: usize) -> usize
    ensures { IsPrefixLen result out.new }
{
    if v == 0 {
        return append(out, at, b"");
    }
    append(out, at, b"\t")
}

// Writes the names of a solution's first `variables` variables, with tabs between them.
pub fn solution(
    rt: &impl Outputs,
    c: Counters,
    tables: Tables,
    s: Solution,
    variables: usize,
) -> bool {
    let mut out = [0u8; LINE];
    let mut at = 0;
    for (v, n) in s.values[..variables.min(VARIABLES)].iter().enumerate() {
        at = append_tab(&mut out, at, v);
        at = append_name(&mut out, at, c, tables, *n);
    }
    let end = append(&mut out, at, b"\n");
    put(rt, Output::Standard, &out[..end])
}

// Writes a triple as a line of N-Triples.
fn triple(rt: &impl Outputs, c: Counters, tables: Tables, x: Triple) -> bool {
    let mut out = [0u8; LINE];
    let a = append_name(&mut out, 0, c, tables, x.subject);
    let b = append(&mut out, a, b" ");
    let d = append_name(&mut out, b, c, tables, x.predicate);
    let e = append(&mut out, d, b" ");
    let f = append_name(&mut out, e, c, tables, x.object);
    let g = append(&mut out, f, b" .\n");
    put(rt, Output::Standard, &out[..g])
}

// Writes the statement with this number as a line of N-Triples; one that cannot be read, which no sound store has, is passed over.
pub fn statement(rt: &impl Outputs, c: Counters, tables: Tables, n: StatementId) -> bool {
    match table::read_statement(c, tables, n) {
        Ok(StatementRead { triple: x, .. }) => triple(rt, c, tables, x),
        Err(_) => true,
    }
}
