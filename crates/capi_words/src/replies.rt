// Each operation's reply as numbers: the refusal's number or 0, and the words that the reply names, 0 beside a refusal.
// Functions, and no `From`: the replies are another crate's and the results the library's, so that no impl may stand here.
ghost use Rattle.std.specs.Prelude.{◌≡◌};
ghost use Rattle.store.specs.Values.{scanned_values, asserted_values, no_cursor};
ghost use Rattle.capi_calls.specs.Words.{numbered, kind_answer, check_answer, looked_up, lookup_answer, prefix_answer};
ghost use Rattle.capi_calls.specs.Words.{export_answer, retract_answer, enter_answer};
ghost use Rattle.capi_calls.specs.Words.{name_answer, statement_answer, assert_answer, scanned_answer, asserted_with};
ghost use Rattle.capi_calls.specs.Words.{scanned_with};
ghost use Rattle.capi_calls.specs.Words.{size_of, part, no_parts, read_answer};

use capi_calls::{
    AssertReply, FindReply, LineReply, NameReply, NumberReply, Part, ScanReply, StatementReply,
};
use ntriples::{Line, Span};
use store::{
    Asserted, Chain, Counters, Interned, Lookup, NameSpan, Refusal, ResourceId, ScanCursor,
    Scanned, StatementId, StatementRead, Triple, refusal_number,
};

// A result and a number.
fn number(res: u32, n: u32) -> NumberReply
    ensures { result ≡ numbered res n }
{
    NumberReply {
        result: res,
        number: n,
    }
}

pub fn kind_answer(kind: u32) -> NumberReply
    ensures { result ≡ kind_answer kind }
{
    match kind {
        0 => number(2, 0),
        _ => number(0, kind),
    }
}

pub fn check_answer(sound: bool) -> NumberReply
    ensures { result ≡ check_answer sound }
{
    number(0, u32::from(sound))
}

// A result, a number and a position in the index.
fn looked_up(res: u32, n: u32, position: u32) -> FindReply
    ensures { result ≡ looked_up res n position }
{
    FindReply {
        result: res,
        number: n,
        position: position,
    }
}

pub fn lookup_answer(a: Result<Lookup, Refusal>) -> FindReply
    ensures { result ≡ lookup_answer a }
{
    match a {
        Ok(Lookup::Number(n, at)) => looked_up(0, n.0, at),
        Ok(Lookup::Absent(at)) => looked_up(0, 0, at),
        Err(e) => looked_up(refusal_number(e), 0, 0),
    }
}

// A total of names, or a file's length.
pub fn total_answer(a: Result<u32, Refusal>) -> NumberReply
    ensures total { result ≡ prefix_answer a }
    ensures length { result ≡ export_answer a }
{
    match a {
        Ok(n) => number(0, n),
        Err(e) => number(refusal_number(e), 0),
    }
}

pub fn retract_answer(a: Result<Option<StatementId>, Refusal>) -> NumberReply
    ensures { result ≡ retract_answer a }
{
    match a {
        Ok(Some(n)) => number(0, n.0),
        Ok(None) => number(0, 0),
        Err(e) => number(refusal_number(e), 0),
    }
}

pub fn enter_answer(a: Result<Interned, Refusal>) -> NumberReply
    ensures { result ≡ enter_answer a }
{
    match a {
        Ok(entered) => number(0, entered.number.0),
        Err(e) => number(refusal_number(e), 0),
    }
}

pub fn name_answer(a: Result<NameSpan, Refusal>) -> NameReply
    ensures { result ≡ name_answer a }
{
    match a {
        Ok(name) => NameReply {
            result: 0,
            start: name.start,
            size: name.size,
        },
        Err(e) => NameReply {
            result: refusal_number(e),
            start: 0,
            size: 0,
        },
    }
}

pub fn statement_answer(a: Result<StatementRead, Refusal>) -> StatementReply
    ensures { result ≡ statement_answer a }
{
    match a {
        Ok(statement) => StatementReply {
            result: 0,
            subject: statement.triple.subject.0,
            predicate: statement.triple.predicate.0,
            object: statement.triple.object.0,
            flag: statement.flag,
        },
        Err(e) => StatementReply {
            result: refusal_number(e),
            subject: 0,
            predicate: 0,
            object: 0,
            flag: 0,
        },
    }
}

// What asserting did, and the statement.
fn asserted(res: u32, status: u32, number: u32) -> AssertReply
    ensures { result ≡ asserted_with res status number }
{
    AssertReply {
        result: res,
        status: status,
        number: number,
    }
}

pub fn assert_answer(a: Result<Asserted, Refusal>) -> AssertReply
    ensures { result ≡ assert_answer a }
{
    match a {
        Ok(Asserted::New(n, _)) => asserted(0, 1, n.0),
        Ok(Asserted::Already(n, _)) => asserted(0, 2, n.0),
        Ok(Asserted::Revived(n, _)) => asserted(0, 3, n.0),
        Err(e) => asserted(refusal_number(e), 0, 0),
    }
}

// The counters from now on; of a refusal those of a store that holds nothing.
pub fn asserted_counters(a: Result<Asserted, Refusal>) -> Counters
    ensures { result ≡ (asserted_values a).counters }
{
    match a {
        Ok(Asserted::New(_, c) | Asserted::Already(_, c) | Asserted::Revived(_, c)) => c,
        Err(_) => Counters::fresh(),
    }
}

// What a next call of a scan did, the statement, and the visits made.
fn scanned(res: u32, status: u32, number: u32, visits: u32) -> ScanReply
    ensures { result ≡ scanned_with res status number visits }
{
    ScanReply {
        result: res,
        status: status,
        number: number,
        visits: visits,
    }
}

pub fn scanned_answer(a: Result<Scanned, Refusal>) -> ScanReply
    ensures { result ≡ scanned_answer a }
{
    match a {
        Ok(Scanned::Found(n, visits, _)) => scanned(0, 1, n.0, visits),
        Ok(Scanned::Ended(visits, _)) => scanned(0, 2, 0, visits),
        Ok(Scanned::Spent(visits, _)) => scanned(0, 3, 0, visits),
        Err(e) => scanned(refusal_number(e), 0, 0, 0),
    }
}

// No cursor.
fn no_cursor() -> ScanCursor
    ensures { result ≡ no_cursor }
{
    let none = Triple {
        subject: ResourceId(0),
        predicate: ResourceId(0),
        object: ResourceId(0),
    };
    ScanCursor {
        pattern: none,
        chain: Chain::All,
        next: StatementId(0),
        generation: 0,
    }
}

// The cursor from now on; of a refusal none.
pub fn scanned_cursor(a: Result<Scanned, Refusal>) -> ScanCursor
    ensures { result ≡ (scanned_values a).cursor }
{
    match a {
        Ok(Scanned::Found(_, _, q) | Scanned::Ended(_, q) | Scanned::Spent(_, q)) => q,
        Err(_) => no_cursor(),
    }
}

// How many bytes a part has.
fn size(p: Span) -> u64
    ensures { result ≡ size_of p }
{
    p.end.saturating_sub(p.start) as u64
}

// A part of a line, by its span.
fn part(p: Span) -> Part
    ensures { result ≡ part p.start (size_of p) }
{
    Part {
        start: p.start as u64,
        size: size(p),
    }
}

// The reply of a line with no parts, which beside a refusal names its offset.
fn no_parts(res: u32, what: u64, next: usize, offset: usize) -> LineReply
    ensures { result ≡ no_parts res what next offset }
{
    LineReply {
        result: res,
        what: what,
        next: next as u64,
        subject: Part {
            start: offset as u64,
            size: 0,
        },
        predicate: Part { start: 0, size: 0 },
        object: Part { start: 0, size: 0 },
    }
}

pub fn line_answer(line: Line, next: usize) -> LineReply
    ensures { result ≡ read_answer line next }
{
    match line {
        Line::End => no_parts(0, 0, next, 0),
        Line::Nothing => no_parts(0, 1, next, 0),
        Line::Refused(offset) => no_parts(10, 0, next, offset),
        Line::Triple(s, p, o) => LineReply {
            result: 0,
            what: 2,
            next: next as u64,
            subject: part(s),
            predicate: part(p),
            object: part(o),
        },
    }
}
