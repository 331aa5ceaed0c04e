// A line loaded: what was read of it is entered and asserted, or refused.
ghost use Rattle.std.specs.Prelude.{◌≡◌, drop};
ghost use Rattle.term.specs.Grammar.{name_limit};
ghost use Rattle.store.specs.Tables.{tables};
ghost use Rattle.table.specs.Lent.{held_mut, SameSlices};
ghost use Rattle.ntriples.specs.Reader.{first_line_of, read_of};
ghost use Rattle.loader.specs.Lines.{line_at, Loads};
ghost use Rattle.loader.specs.Steps.{LineInside, Ends, ReadAt, refused_line, asserted_line};

use ntriples::{Line, Span};
use store::{Asserted, Counters, Refusal, ResourceId, StatementId, Triple};
use table::lent::TablesMut;

// A line has at most this many bytes, its ending apart.
pub const LINE_LIMIT: usize = 1024;

// What a line that is not refused comes to. Nothing: it is blank or a comment. Else the number of a statement that is new, that was there
// already, or that is there again.
#[derive(Clone, Copy, PartialEq, Eq)]
pub enum Outcome {
    Nothing,
    New(StatementId),
    Already(StatementId),
    Revived(StatementId),
}

// What a line comes to, and the counters after it.
#[derive(Clone, Copy)]
pub struct LineLoaded {
    pub counters: Counters,
    pub outcome: Result<Outcome, Refusal>,
}

// A line that is refused, with the counters it leaves.
fn refused(c: Counters, e: Refusal) -> LineLoaded
    ensures { result ≡ refused_line c e }
{
    LineLoaded {
        counters: c,
        outcome: Err(e),
    }
}

// A line whose triple was asserted.
fn asserted(c: Counters, a: Result<Asserted, Refusal>) -> LineLoaded
    ensures { result ≡ asserted_line c a }
{
    let (counters, outcome) = match a {
        Ok(Asserted::New(n, d)) => (d, Outcome::New(n)),
        Ok(Asserted::Already(n, d)) => (d, Outcome::Already(n)),
        Ok(Asserted::Revived(n, d)) => (d, Outcome::Revived(n)),
        Err(e) => return refused(c, e),
    };
    LineLoaded {
        counters,
        outcome: Ok(outcome),
    }
}

// Loads a triple whose parts lie in the source: enters their names, subject first, and asserts. The tables are four slices, since some are
// only read at each call. A match, since a refusal leaves the counters of the names before it, which `?` would drop.
fn load_triple(
    c: Counters,
    resources: &mut [u32],
    statements: &mut [u32],
    index: &mut [u32],
    text: &mut [u8],
    source: &[u8],
    subject: Span,
    predicate: Span,
    object: Span,
) -> LineLoaded
    requires { LineInside source.now (Line.Triple subject predicate object) }
    ensures { Loads c (tables resources.old statements.old index.old text.old)
        (tables resources.new statements.new index.new text.new)
        source.now (Line.Triple subject predicate object) result }
{
    let parts = [subject, predicate, object];
    let mut ids = [ResourceId(0); 3];
    let mut d = c;
    // The names of the first i parts are entered, with the numbers in `ids`; the counters are `d`.
    for (i, part) in parts.iter().enumerate() {
        let a = part.start;
        let b = part.end;
        match dictionary::intern(d, resources, statements, index, text, &source[a..b]) {
            Err(e) => return refused(d, e),
            Ok(entered) => {
                ids[i] = entered.number;
                d = entered.counters;
            }
        }
    }
    let x = Triple {
        subject: ids[0],
        predicate: ids[1],
        object: ids[2],
    };
    let r = statement::assert(d, resources, statements, index, text, x);
    asserted(d, r)
}

// Loads what was read of a line of the source.
fn load_read(c: Counters, tables: &mut TablesMut, source: &[u8], line: Line) -> LineLoaded
    requires { LineInside source.now line }
    ensures same { SameSlices tables.new tables.old }
    ensures loads { Loads c (held_mut tables.old) (held_mut tables.new)
        source.now line result }
{
    match line {
        Line::Triple(s, p, o) => load_triple(
            c,
            tables.resources,
            tables.statements,
            tables.index,
            tables.text,
            source,
            s,
            p,
            o,
        ),
        Line::Refused(_) => refused(c, Refusal::BadLine),
        Line::End | Line::Nothing => LineLoaded {
            counters: c,
            outcome: Ok(Outcome::Nothing),
        },
    }
}

// The line of the source from `from` up to `next`, its ending apart: a LF, and one CR before it.
pub(crate) fn content(source: &[u8], from: usize, next: usize) -> &[u8]
    requires { Ends source.now from next }
    ensures { result.now ≡ first_line_of (drop from source.now) }
{
    let line = &source[from..next];
    match line.strip_suffix(b"\n") {
        None => line,
        Some(ended) => match ended.strip_suffix(b"\r") {
            None => ended,
            Some(shorter) => shorter,
        },
    }
}

// Loads the line of the source from `from` up to `next`, read as `line`. Over `LINE_LIMIT` bytes it is refused 10, whatever it holds.
pub fn load_line(
    c: Counters,
    tables: &mut TablesMut,
    source: &[u8],
    from: usize,
    line: Line,
    next: usize,
) -> LineLoaded
    requires { ReadAt source.now from line next }
    ensures same { SameSlices tables.new tables.old }
    ensures loads { Loads c (held_mut tables.old) (held_mut tables.new)
        source.now (line_at source.now from) result }
{
    // With its ending a line is longer: of one within the limit the ending is not looked at.
    if next - from > LINE_LIMIT && content(source, from, next).len() > LINE_LIMIT {
        return refused(c, Refusal::BadLine);
    }
    load_read(c, tables, source, line)
}

// Loads the first line of the source, of any length.
pub fn load_first(c: Counters, tables: &mut TablesMut, source: &[u8]) -> LineLoaded
    ensures same { SameSlices tables.new tables.old }
    ensures loads { Loads c (held_mut tables.old) (held_mut tables.new)
        source.now (read_of name_limit source.now 0).line result }
{
    let read = ntriples::read_line(source, 0);
    let line = read.line;
    load_read(c, tables, source, line)
}
