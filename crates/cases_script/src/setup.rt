// Lines that set something up.
ghost use Rattle.table.specs.Lent.{SameSlices};

use crate::script::Verb;
use crate::state::{Lent, QUESTION_WORDS, Question, State};
use crate::{script, state, words};
use graph::{Progress, QueryCursor};
use store::{Counters, ScanCursor, StatementId};
use table::lent::TablesMut;
use table::word::{COUNT, FLAG, KIND, LIVE, NEXT, OFFSET, RESOURCE_WORDS, STATEMENT_WORDS};

// ---- the state: the words of a line after its first, 0 for one that is not there

pub fn settings(state: &mut State, verb: Verb, line: &[u8]) {
    match verb {
        Verb::Lend => state.lent = lent(line),
        Verb::Counters => state.counters = counters(line),
        Verb::Listing => state.listing = listing(line),
        Verb::Question => state.question = question(line),
        Verb::Place => state.place = place(line),
        _ => {}
    }
}

// The fifth word is `short`.
fn lent(line: &[u8]) -> Lent {
    Lent {
        resources: script::number(line, 1),
        statements: script::number(line, 2),
        index: script::number(line, 3),
        text: script::number(line, 4),
        short_resources: script::number(line, 6),
        short_statements: script::number(line, 7),
    }
}

fn counters(line: &[u8]) -> Counters {
    Counters {
        resources: script::number(line, 1),
        statements: script::number(line, 2),
        text: script::number(line, 3),
        generation: script::number(line, 4),
    }
}

fn listing(line: &[u8]) -> ScanCursor {
    ScanCursor {
        pattern: state::triple(
            script::number(line, 1),
            script::number(line, 2),
            script::number(line, 3),
        ),
        chain: script::chain(line, 4),
        next: StatementId(script::number(line, 5)),
        generation: script::number(line, 6),
    }
}

fn question(line: &[u8]) -> Question {
    let mut words = [0; QUESTION_WORDS];
    for (k, word) in words.iter_mut().enumerate() {
        *word = script::number(line, k + 1);
    }
    Question {
        words,
        count: script::count(line),
    }
}

// How far, how many levels, reclaims, and of each level its chain and its record.
fn place(line: &[u8]) -> QueryCursor {
    let mut levels = state::no_place().levels;
    for (k, level) in levels.iter_mut().enumerate() {
        level.chain = script::chain(line, 4 + 2 * k);
        level.statement = StatementId(script::number(line, 5 + 2 * k));
    }
    QueryCursor {
        progress: match script::number(line, 1) {
            4 => Progress::Within,
            5 => Progress::End,
            _ => Progress::Start,
        },
        depth: script::number(line, 2),
        generation: script::number(line, 3),
        levels,
    }
}

// ---- the tables

pub fn tables(verb: Verb, line: &[u8], tables: &mut TablesMut)
    ensures { SameSlices tables.new tables.old }
{
    let n = script::number(line, if changes(line) { 2 } else { 1 });
    match verb {
        Verb::Fill => fill(n, tables),
        Verb::Resource => record(line, tables.resources, n, RESOURCE_WORDS),
        Verb::Statement => record(line, tables.statements, n, STATEMENT_WORDS),
        Verb::Index => fields(line, 2, tables.index, n as usize),
        _ => bytes(tables.text, n as usize, script::rest(line, 2)),
    }
}

fn fill(v: u32, tables: &mut TablesMut)
    ensures { SameSlices tables.new tables.old }
{
    tables.resources.fill(v);
    tables.statements.fill(v);
    tables.index.fill(v);
    tables.text.fill(u8::try_from(v).unwrap_or(u8::MAX));
}

// Whether a line begins with `change`: then its number is the third word, and else the second.
fn changes(line: &[u8]) -> bool {
    matches!(line.first(), Some(b'c'))
}

// A record whole, or after `change` the fields named.
fn record(line: &[u8], table: &mut [u32], n: u32, width: usize) {
    let first = words::start(n, width);
    if changes(line) {
        fields(line, 3, table, first);
        return;
    }
    words::clear(table, first, width);
    fields(line, 2, table, first);
}

// The words of a line from word `from` on, to the 64th: a field goes to its place in the part of the table that begins at `first`, a number
// is written there.
fn fields(line: &[u8], from: usize, table: &mut [u32], first: usize) {
    let mut at = first;
    for k in from..64 {
        let word = script::word(line, k);
        if word.is_empty() {
            return;
        }
        at = field(word, table, first, at);
    }
}

// One word of a line: where the next one goes.
fn field(word: &[u8], table: &mut [u32], first: usize, at: usize) -> usize {
    match word {
        b"subject" => at,
        b"predicate" => std::num::wrapping_add_usize(at, 1),
        b"object" => std::num::wrapping_add_usize(at, 2),
        b"first" | b"triple" => first,
        b"count" => std::num::wrapping_add_usize(first, COUNT),
        b"next" => std::num::wrapping_add_usize(first, NEXT),
        b"offset" => std::num::wrapping_add_usize(first, OFFSET),
        b"kind" => std::num::wrapping_add_usize(first, KIND),
        b"flag" => std::num::wrapping_add_usize(first, FLAG),
        b"live" => std::num::wrapping_add_usize(first, LIVE),
        _ => {
            words::put(table, at, script::value(word));
            std::num::wrapping_add_usize(at, 1)
        }
    }
}

// Bytes into the text from `first` on, a zero byte for a bar.
pub fn bytes(text: &mut [u8], first: usize, from: &[u8]) {
    for (to, b) in text.iter_mut().skip(first).zip(from) {
        *to = if *b == b'|' { 0 } else { *b };
    }
}
