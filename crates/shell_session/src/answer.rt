// What the commands write, a line at a time. What writes a part of an answer says whether it was written; what ends one, the status.
ghost use Rattle.streams.specs.Counts.{IsPrefixLen};

use crate::commands::State;
use loader::line::Outcome;
use report::output::{append, append_decimal, put};
use report::status::Status;
use shell_answer::{End, Told};
use shell_line::parts;
use shell_line::parts::Parts;
use shell_print::names::append_tab;
use shell_print::refusal;
use shell_print::status::told;
use store::{Counters, Refusal};
use streams::{Output, Outputs};

// A line of at most 1,024 bytes with what is written beside it. The variables stand in the line, with white between them, and so they fit.
const LINE: usize = 1280;

// Appends a label and a number.
fn append_count(out: &mut [u8], at: usize, label: &[u8], n: u64) -> usize
    ensures { IsPrefixLen result out.new }
{
    let a = append(out, at, label);
    let b = append(out, a, b" ");
    append_decimal(out, b, n)
}

// Writes a label and a number.
fn count(rt: &impl Outputs, to: Output, label: &[u8], n: u64) -> bool {
    let mut out = [0u8; LINE];
    let a = append_count(&mut out, 0, label, n);
    let b = append(&mut out, a, b"\n");
    put(rt, to, &out[..b])
}

// Writes two labels, each with a number.
fn two_counts(rt: &impl Outputs, to: Output, first: &[u8], n: u64, second: &[u8], m: u64) -> bool {
    let mut out = [0u8; LINE];
    let a = append_count(&mut out, 0, first, n);
    let b = append(&mut out, a, b" ");
    let d = append_count(&mut out, b, second, m);
    let e = append(&mut out, d, b"\n");
    put(rt, to, &out[..e])
}

// A label and a number, unless it is 0.
fn count_some(rt: &impl Outputs, label: &[u8], n: u64) -> bool {
    n == 0 || count(rt, Output::Standard, label, n)
}

// With a terminal: what was loaded, what of the files was not, and where the commands are listed.
pub fn greet(rt: &impl Outputs, terminal: bool, s: State) -> bool {
    if !terminal {
        return true;
    }
    let c = s.counters;
    two_counts(
        rt,
        Output::Standard,
        b"resources",
        c.resources as u64,
        b"statements",
        c.statements as u64,
    ) && count_some(rt, b"missing", s.missing)
        && count_some(rt, b"unread", s.unread)
        && put(rt, Output::Standard, b"help lists the commands\n")
}

// With a terminal: the prompt, unless `begun` bytes of the line are read already.
pub fn prompt(rt: &impl Outputs, terminal: bool, begun: usize) -> bool {
    begun > 0 || !terminal || put(rt, Output::Standard, b"> ")
}

// With a terminal: the input has ended after a prompt.
pub fn end_prompt(rt: &impl Outputs, terminal: bool) -> bool {
    !terminal || put(rt, Output::Standard, b"\n")
}

// Appends the variables of a question, with tabs between them.
fn append_variables(out: &mut [u8], bytes: &[u8], p: Parts) -> usize
    ensures { IsPrefixLen result out.new }
{
    let mut at = append(out, 0, b"");
    for (v, first) in p.first[..p.variables.min(graph::VARIABLES)]
        .iter()
        .enumerate()
    {
        at = append_tab(out, at, v);
        at = append(out, at, parts::part_of(bytes, p, *first));
    }
    at
}

// The variables of a question.
pub fn variables(rt: &impl Outputs, notices: Output, bytes: &[u8], p: Parts) -> bool {
    let mut out = [0u8; LINE];
    let a = append_variables(&mut out, bytes, p);
    let b = append(&mut out, a, b"\n");
    put(rt, notices, &out[..b])
}

// A name that the store does not have.
pub fn unknown(rt: &impl Outputs, notices: Output, name: &[u8]) -> bool {
    let mut out = [0u8; LINE];
    let a = append(&mut out, 0, b"unknown ");
    let b = append(&mut out, a, name);
    let d = append(&mut out, b, b"\n");
    put(rt, notices, &out[..d])
}

// Done where a reading has ended and all was written; otherwise that is told.
fn ended(rt: &impl Outputs, notices: Output, t: Told) -> Status {
    match t.end {
        End::Ended => Status::Done,
        End::Unwritten => Status::Failed,
        End::Refused(e) => refusal::refused(rt, notices, e),
        End::Stopped => told(put(rt, notices, b"not ended\n"), Status::Refused),
    }
}

// The last line of a question; `status` is that of one that has ended.
pub fn solutions(rt: &impl Outputs, notices: Output, t: Told, status: Status) -> Status {
    let e = ended(rt, notices, t);
    if e != Status::Done {
        return e;
    }
    let written = two_counts(rt, notices, b"solutions", t.found, b"visits", t.visits);
    told(written, status)
}

// The last line of a list; `status` is that of one that has ended.
pub fn listed(rt: &impl Outputs, notices: Output, t: Told, status: Status) -> Status {
    let e = ended(rt, notices, t);
    if e != Status::Done {
        return e;
    }
    told(count(rt, notices, b"statements", t.found), status)
}

// What a command came to: a label and a number.
pub fn became(rt: &impl Outputs, notices: Output, label: &[u8], n: u32) -> Status {
    told(count(rt, notices, label, n as u64), Status::Done)
}

// What an assert came to.
pub fn outcome(rt: &impl Outputs, notices: Output, outcome: Result<Outcome, Refusal>) -> Status {
    match outcome {
        Ok(Outcome::Nothing) => Status::Done,
        Ok(Outcome::New(n)) => became(rt, notices, b"new", n.0),
        Ok(Outcome::Already(n)) => became(rt, notices, b"already", n.0),
        Ok(Outcome::Revived(n)) => became(rt, notices, b"revived", n.0),
        Err(e) => refusal::refused(rt, notices, e),
    }
}

// There is no such statement to retract.
pub fn absent(rt: &impl Outputs, notices: Output) -> Status {
    told(put(rt, notices, b"absent\n"), Status::Refused)
}

// A label, and a number for each position.
pub fn three(rt: &impl Outputs, label: &[u8], s: u32, p: u32, o: u32) -> bool {
    let mut out = [0u8; LINE];
    let a = append(&mut out, 0, label);
    let b = append_count(&mut out, a, b" subject", s as u64);
    let d = append_count(&mut out, b, b" predicate", p as u64);
    let e = append_count(&mut out, d, b" object", o as u64);
    let f = append(&mut out, e, b"\n");
    put(rt, Output::Standard, &out[..f])
}

// What is in use, and how many more there is room for.
fn in_use(rt: &impl Outputs, label: &[u8], used: u32, capacity: usize) -> bool {
    let room = capacity.saturating_sub(used as usize);
    two_counts(
        rt,
        Output::Standard,
        label,
        used as u64,
        b"room",
        room as u64,
    )
}

// What is in use of tables with room for so many, and how many statements are live.
fn used(
    rt: &impl Outputs,
    c: Counters,
    resources: usize,
    statements: usize,
    text: usize,
    live: u32,
) -> bool {
    in_use(rt, b"resources", c.resources, resources)
        && in_use(rt, b"statements", c.statements, statements)
        && count(rt, Output::Standard, b"live", live as u64)
        && in_use(rt, b"bytes", c.text, text)
        && in_use(
            rt,
            b"reclaims",
            c.generation,
            Counters::MAX_RECLAIMS as usize,
        )
}

// The same, and how many lines of the files were refused and files could not be read.
pub fn totals(
    rt: &impl Outputs,
    s: State,
    resources: usize,
    statements: usize,
    text: usize,
    live: u32,
) -> Status {
    let written = used(rt, s.counters, resources, statements, text, live)
        && count(rt, Output::Standard, b"missing", s.missing)
        && count(rt, Output::Standard, b"unread", s.unread);
    told(written, Status::Done)
}

pub fn checked(rt: &impl Outputs, sound: bool) -> Status {
    if sound {
        told(put(rt, Output::Standard, b"sound\n"), Status::Done)
    } else {
        told(put(rt, Output::Standard, b"unsound\n"), Status::Refused)
    }
}

pub fn reclaimed(rt: &impl Outputs, notices: Output, before: u32, after: u32) -> Status {
    let written = two_counts(
        rt,
        notices,
        b"statements before",
        before as u64,
        b"after",
        after as u64,
    );
    told(written, Status::Done)
}

// The commands, in one screen: `help.txt`.
fn page(rt: &impl Outputs) -> bool {
    put(
        rt,
        Output::Standard,
        b"Questions: one to six patterns of subject, predicate and object, dots between.
  <r:21> <p:trips> ?b . ?b <p:in> ?bay     ?b and ?bay stand for any name
A name is an IRI <r:21>, a blank node _:ct or a literal \"open\", \"Nord\"@de,
\"18400\"^^<http://www.w3.org/2001/XMLSchema#integer>.

  list S P O          the statements that match, ? for any
  names BEGINNING     the names that begin so; all names if nothing follows
  counts NAME         how often a name is subject, predicate and object:
                      in live statements, then with the retracted ones
  assert S P O .      enter a statement, or make a retracted one live again
  retract S P O .     strike a statement out
  totals              what is in use, the room that is left, what is live,
                      and what of the files is missing
  check               whether the tables are sound
  reclaim             get the room of retracted statements back;
                      the others get new numbers
  save                write the live statements as an N-Triples file
  help                this page
  quit                leave

A line that begins with # is a comment. What is refused changes nothing.
",
    )
}

pub fn help(rt: &impl Outputs) -> Status {
    told(page(rt), Status::Done)
}
