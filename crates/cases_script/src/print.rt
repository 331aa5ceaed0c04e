// A case's line: its number, its name, the answer.
use crate::script::Verb;
use crate::state::State;
use crate::{script, words};
use graph::{Level, Progress, QueryCursor, Solution};
use store::{Chain, Position, Refusal, ScanCursor};
use streams::{Output, Outputs, print_decimal, write_all};
use table::lent::Tables;
use table::word::{COUNT, FLAG, KIND, LIVE, NEXT, OFFSET, RESOURCE_WORDS, STATEMENT_WORDS};

fn text(rt: &impl Outputs, bytes: &[u8]) {
    write_all(rt, Output::Standard, bytes);
}

// A word of an answer.
pub fn token(rt: &impl Outputs, word: &[u8]) {
    text(rt, b" ");
    text(rt, word);
}

pub fn number(rt: &impl Outputs, n: u32) {
    text(rt, b" ");
    print_decimal(rt, Output::Standard, u64::from(n));
}

pub fn end(rt: &impl Outputs) {
    text(rt, b"\n");
}

// A word, and a number.
pub fn labelled(rt: &impl Outputs, word: &[u8], n: u32) {
    token(rt, word);
    number(rt, n);
}

pub fn refused(rt: &impl Outputs, e: Refusal) {
    labelled(rt, b"refused", store::refusal_number(e));
}

// A case's number, one more than the last one's, and its name: the line up to the colon; the last case's line ends here. Nothing of another
// line.
pub fn begin(rt: &impl Outputs, state: &mut State, verb: Verb, line: &[u8]) {
    if verb.sets_up() {
        return;
    }
    let last = state.case;
    let case = std::num::wrapping_add_u32(last, 1);
    if last != 0 {
        end(rt);
    }
    print_decimal(rt, Output::Standard, u64::from(case));
    token(rt, line.split(|b| *b == b':').next().unwrap_or(line));
    state.case = case;
}

// A part's length, and its bytes if they are few.
pub fn part(rt: &impl Outputs, bytes: &[u8]) {
    token(rt, b"part");
    text(rt, b" ");
    print_decimal(rt, Output::Standard, bytes.len() as u64);
    if !bytes.is_empty() && bytes.len() < 10 {
        token(rt, bytes);
    }
}

// ---- places and solutions

// The pattern, the chain, the next record, the number of reclaims.
pub fn listing(rt: &impl Outputs, q: ScanCursor) {
    token(rt, b"place");
    number(rt, q.pattern.subject.0);
    number(rt, q.pattern.predicate.0);
    number(rt, q.pattern.object.0);
    token(rt, chain(q.chain, b"none"));
    number(rt, q.next.0);
    number(rt, q.generation);
}

// A chain by its letter, that of all records as told.
fn chain<'a>(chain: Chain, all: &'a [u8]) -> &'a [u8] {
    match chain {
        Chain::All => all,
        Chain::By(Position::Subject) => b"s",
        Chain::By(Position::Predicate) => b"p",
        Chain::By(Position::Object) => b"o",
    }
}

// How far, how many levels, the number of reclaims, and every level, the first pattern's first.
pub fn place(rt: &impl Outputs, q: QueryCursor) {
    token(rt, b"place");
    match q.progress {
        Progress::Start => token(rt, b"start"),
        Progress::Within => token(rt, b"within"),
        Progress::End => token(rt, b"end"),
    }
    number(rt, q.depth);
    number(rt, q.generation);
    for l in q.levels {
        level(rt, l);
    }
}

// A chain, by letter or `-` for all records, and a record.
fn level(rt: &impl Outputs, l: Level) {
    token(rt, chain(l.chain, b"-"));
    print_decimal(rt, Output::Standard, u64::from(l.statement.0));
}

// The number of each variable.
pub fn solution(rt: &impl Outputs, b: Solution) {
    token(rt, b"solution");
    for value in b.values {
        number(rt, value.0);
    }
}

// ---- shows

pub fn show(rt: &impl Outputs, line: &[u8], tables: Tables) {
    let n = script::number(line, 3);
    match script::word(line, 2) {
        b"resource" => resource(
            rt,
            words::from(tables.resources, words::start(n, RESOURCE_WORDS)),
        ),
        b"statement" => statement(
            rt,
            words::from(tables.statements, words::start(n, STATEMENT_WORDS)),
        ),
        b"resources" => all_resources(rt, tables.resources),
        b"index" => numbers(rt, tables.index),
        _ => barred(rt, tables.text),
    }
}

fn resource(rt: &impl Outputs, record: &[u32]) {
    field(rt, b"first", record, 0, 3);
    field(rt, b"count", record, COUNT, 3);
    field(rt, b"offset", record, OFFSET, 1);
    field(rt, b"kind", record, KIND, 1);
    field(rt, b"live", record, LIVE, 3);
}

fn statement(rt: &impl Outputs, record: &[u32]) {
    field(rt, b"triple", record, 0, 3);
    field(rt, b"next", record, NEXT, 3);
    field(rt, b"flag", record, FLAG, 1);
}

// A field's name, and its words.
fn field(rt: &impl Outputs, name: &[u8], record: &[u32], at: usize, n: usize) {
    token(rt, name);
    for k in 0..n {
        number(rt, words::get(record, std::num::wrapping_add_usize(at, k)));
    }
}

pub fn numbers(rt: &impl Outputs, words: &[u32]) {
    for n in words {
        number(rt, *n);
    }
}

// Bytes, each by its number.
pub fn codes(rt: &impl Outputs, bytes: &[u8]) {
    for b in bytes {
        number(rt, u32::from(*b));
    }
}

// Every whole record.
fn all_resources(rt: &impl Outputs, resources: &[u32]) {
    for record in resources.chunks_exact(RESOURCE_WORDS) {
        resource(rt, record);
    }
}

// Bytes, a bar for each zero byte.
fn barred(rt: &impl Outputs, bytes: &[u8]) {
    text(rt, b" ");
    for b in bytes {
        let shown = if *b == 0 { b'|' } else { *b };
        text(rt, &[shown]);
    }
}
