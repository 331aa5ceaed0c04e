// The commands that write to the store: assert, retract, reclaim. A refused one changes nothing.
ghost use Rattle.table.specs.Lent.{SameSlices};

use crate::answer;
use loader::line::Outcome;
use ntriples::{Line, Span};
use report::status::Status;
use shell_line::part::bytes_of;
use shell_print::{names, refusal};
use shell_words::number_of;
use store::{Counters, Refusal, ResourceId, Triple};
use streams::{Output, Outputs};
use table::lent::{Tables, TablesMut};

// The counters after a command, and its status.
#[derive(Clone, Copy)]
pub struct Changed {
    pub counters: Counters,
    pub status: Status,
}

// The counters with a command's status.
pub fn with_status(c: Counters, status: Status) -> Changed {
    Changed {
        counters: c,
        status,
    }
}

// The rest of a line, from an offset on.
fn rest_of(line: &[u8], from: usize) -> &[u8] {
    bytes_of(line, from, line.len())
}

// Tells that a line cannot be read: at an offset of its rest, which begins at `from`.
fn unreadable(
    rt: &impl Outputs,
    notices: Output,
    line: &[u8],
    from: usize,
    offset: usize,
) -> Status {
    refusal::refused_at(
        rt,
        notices,
        line,
        Refusal::BadLine,
        from.wrapping_add(offset),
    )
}

// Whether the rest of the line has a statement; if not, it cannot be read, which is told.
fn tell_unreadable(
    rt: &impl Outputs,
    notices: Output,
    line: &[u8],
    from: usize,
) -> Result<(), Status> {
    match ntriples::read_line(rest_of(line, from), 0).line {
        Line::Triple(_, _, _) => Ok(()),
        Line::Refused(k) => Err(unreadable(rt, notices, line, from, k)),
        _ => Err(unreadable(rt, notices, line, from, 0)),
    }
}

// Tells the names that were entered: those with the numbers after `before`.
fn tell_entered(
    rt: &impl Outputs,
    notices: Output,
    before: u32,
    d: Counters,
    tables: Tables,
) -> bool {
    for n in before..d.resources {
        if !names::name(rt, notices, b"entered ", d, tables, ResourceId(n + 1)) {
            return false;
        }
    }
    true
}

// Tells what an assert came to, with the names that it entered.
fn tell_asserted(
    rt: &impl Outputs,
    notices: Output,
    before: u32,
    d: Counters,
    tables: Tables,
    outcome: Result<Outcome, Refusal>,
) -> Status {
    if !tell_entered(rt, notices, before, d, tables) {
        return Status::Failed;
    }
    answer::outcome(rt, notices, outcome)
}

// Asserts the statement in the rest of the line, whole or not at all.
pub fn assert(
    rt: &impl Outputs,
    notices: Output,
    c: Counters,
    tables: &mut TablesMut,
    line: &[u8],
    from: usize,
) -> Changed
    ensures same { SameSlices tables.new tables.old }
{
    if let Err(told) = tell_unreadable(rt, notices, line, from) {
        return with_status(c, told);
    }
    let source = rest_of(line, from);
    let r = whole_line::load_whole(c, tables, source);
    let d = r.counters;
    let status = tell_asserted(rt, notices, c.resources, d, tables.read(), r.outcome);
    with_status(d, status)
}

// The numbers of a statement's names, where the store has them.
#[derive(Clone, Copy)]
struct Numbers {
    subject: Option<ResourceId>,
    predicate: Option<ResourceId>,
    object: Option<ResourceId>,
}

fn numbers_of(
    c: Counters,
    tables: Tables,
    subject: &[u8],
    predicate: &[u8],
    object: &[u8],
) -> Result<Numbers, Refusal> {
    Ok(Numbers {
        subject: number_of(c, tables, subject)?,
        predicate: number_of(c, tables, predicate)?,
        object: number_of(c, tables, object)?,
    })
}

// Tells a name that the store does not have.
fn tell_name(rt: &impl Outputs, notices: Output, name: &[u8], number: Option<ResourceId>) -> bool {
    number.is_some() || answer::unknown(rt, notices, name)
}

// Tells the names that the store does not have and that there is no such statement.
fn tell_absent(
    rt: &impl Outputs,
    notices: Output,
    subject: &[u8],
    predicate: &[u8],
    object: &[u8],
    n: Numbers,
) -> Status {
    if tell_name(rt, notices, subject, n.subject)
        && tell_name(rt, notices, predicate, n.predicate)
        && tell_name(rt, notices, object, n.object)
    {
        answer::absent(rt, notices)
    } else {
        Status::Failed
    }
}

// The triple of these parts, where the store has their names; otherwise that is told.
fn seek_parts(
    rt: &impl Outputs,
    notices: Output,
    c: Counters,
    tables: Tables,
    source: &[u8],
    s: Span,
    p: Span,
    o: Span,
) -> Result<Triple, Status> {
    let subject = bytes_of(source, s.start, s.end);
    let predicate = bytes_of(source, p.start, p.end);
    let object = bytes_of(source, o.start, o.end);
    match numbers_of(c, tables, subject, predicate, object) {
        Err(e) => Err(refusal::refused(rt, notices, e)),
        Ok(
            Numbers {
                subject: Some(subject),
                predicate: Some(predicate),
                object: Some(object),
            },
        ) => Ok(Triple {
            subject,
            predicate,
            object,
        }),
        Ok(n) => Err(tell_absent(rt, notices, subject, predicate, object, n)),
    }
}

// The triple in the rest of the line.
fn seek(
    rt: &impl Outputs,
    notices: Output,
    c: Counters,
    tables: Tables,
    line: &[u8],
    from: usize,
) -> Result<Triple, Status> {
    let source = rest_of(line, from);
    match ntriples::read_line(source, 0).line {
        Line::Triple(s, p, o) => seek_parts(rt, notices, c, tables, source, s, p, o),
        Line::Refused(k) => Err(unreadable(rt, notices, line, from, k)),
        _ => Err(unreadable(rt, notices, line, from, 0)),
    }
}

// Retracts the statement in the rest of the line.
pub fn retract(
    rt: &impl Outputs,
    notices: Output,
    c: Counters,
    resources: &mut [u32],
    statements: &mut [u32],
    index: &[u32],
    text: &[u8],
    line: &[u8],
    from: usize,
) -> Status {
    let tables = Tables {
        resources,
        statements,
        index,
        text,
    };
    let x = match seek(rt, notices, c, tables, line, from) {
        Ok(x) => x,
        Err(told) => return told,
    };
    match statement::retract(c, resources, statements, index, text, x) {
        Ok(Some(n)) => answer::became(rt, notices, b"retracted", n.0),
        Ok(None) => answer::absent(rt, notices),
        Err(e) => refusal::refused(rt, notices, e),
    }
}

// Gives the room of retracted statements back.
pub fn reclaim(
    rt: &impl Outputs,
    notices: Output,
    c: Counters,
    resources: &mut [u32],
    statements: &mut [u32],
    index: &[u32],
    text: &[u8],
) -> Changed {
    match compaction::reclaim(c, resources, statements, index, text) {
        Ok(d) => {
            with_status(
                d,
                answer::reclaimed(rt, notices, c.statements, d.statements),
            )
        }
        Err(e) => with_status(c, refusal::refused(rt, notices, e)),
    }
}
