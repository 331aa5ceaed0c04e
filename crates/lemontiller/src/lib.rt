// The store for C: every public operation under a plain name, on numbers and slices.
//
// A slice is a pointer and a length in elements. A store function begins with five of them: counters (R, T, B, the
// reclaims so far), resources, statements, index (words of 32 bits) and text (bytes). What a function gives back is 0
// where it answers, the paper's refusal number, or 100 where a lent counters, cursor or reply slice is too short; then
// nothing is written. Beside a refusal the reply's words are 0. Words past those that a reply names keep their values.
// The contracts are equations with the definitions in `specs/Calls.antt` of `capi_calls`, or records there where an
// operation's contract is one. Crate `lemontiller_c` exports each under its name.
#![tactic(auto)]

ghost use Rattle.std.specs.Prelude.{◌≡◌};
ghost use Rattle.store.specs.Tables.{lent, tables};
ghost use Rattle.store.specs.Shared.{triple};
ghost use Rattle.capi_calls.specs.Words.{done, beside, wrote, changed};
ghost use Rattle.capi_calls.specs.Calls.{kind_call, CheckCall, FindCall, name_call, statement_call, line_call, retract_call};
ghost use Rattle.capi_calls.specs.Calls.{open_call, next_call, assert_call, EnterCall};

use capi_calls::{
    ASSERT_REPLY_WORDS, CURSOR_WORDS, FIND_REPLY_WORDS, LINE_WORDS, NAME_REPLY_WORDS,
    NUMBER_REPLY_WORDS, SCAN_REPLY_WORDS, STATEMENT_REPLY_WORDS, TOO_SHORT,
};
use capi_words::replies::{
    assert_answer, asserted_counters, check_answer, enter_answer, kind_answer, line_answer,
    lookup_answer, name_answer, retract_answer, scanned_answer, scanned_cursor, statement_answer,
};
use capi_words::words::{counters_beside, next_from, put_counters, put_cursor, triple_of};
use store::{ResourceId, StatementId, refusal_number};
use table::lent::Tables;

pub mod export;
pub mod names;
pub mod queries;
pub mod reclaim;

// The version of the library as a number, major * 1,000,000 + minor * 1,000 + patch: 0.2.0.
pub fn lt_version() -> u32
    ensures { result ≡ 2000 }
{
    2000
}

// The kind of a name: 1 an IRI, 2 a blank node, 3 a literal; refusal 2 where it is malformed.
pub fn lt_name_kind(name: &[u8], reply: &mut [u32]) -> u32
    ensures { done result reply.new ≡ kind_call name.now reply.old }
{
    if reply.len() < NUMBER_REPLY_WORDS {
        return TOO_SHORT;
    }
    let a = kind_answer(term::name_kind(name));
    reply[0] = a.number;
    a.result
}

// Whether the store is sound: 1 or 0.
pub fn lt_check(
    counters: &[u32],
    resources: &[u32],
    statements: &[u32],
    index: &[u32],
    text: &[u8],
    reply: &mut [u32],
) -> u32
    ensures { CheckCall counters.now (lent resources.entry statements.entry index.entry text.entry)
        reply.old (done result reply.new) }
{
    let Some(c) = counters_beside(counters, reply, NUMBER_REPLY_WORDS) else {
        return TOO_SHORT;
    };
    let tables = Tables {
        resources,
        statements,
        index,
        text,
    };
    let a = check_answer(integrity::check(c, tables));
    reply[0] = a.number;
    a.result
}

// Find a name: its number, or 0; and the position in the index, from 0, where it stands or would stand.
pub fn lt_find(
    counters: &[u32],
    resources: &[u32],
    statements: &[u32],
    index: &[u32],
    text: &[u8],
    name: &[u8],
    reply: &mut [u32],
) -> u32
    ensures { FindCall counters.now (lent resources.entry statements.entry index.entry text.entry)
        name.now reply.old (done result reply.new) }
{
    let Some(c) = counters_beside(counters, reply, FIND_REPLY_WORDS) else {
        return TOO_SHORT;
    };
    let tables = Tables {
        resources,
        statements,
        index,
        text,
    };
    let a = lookup_answer(dictionary::find(c, tables, name));
    reply[0] = a.number;
    reply[1] = a.position;
    a.result
}

// Name of a number: where its bytes start in the text, and how many they are.
pub fn lt_name(
    counters: &[u32],
    resources: &[u32],
    statements: &[u32],
    index: &[u32],
    text: &[u8],
    number: u32,
    reply: &mut [u32],
) -> u32
    ensures { done result reply.new ≡ name_call counters.now
        (lent resources.entry statements.entry index.entry text.entry) number reply.old }
{
    let Some(c) = counters_beside(counters, reply, NAME_REPLY_WORDS) else {
        return TOO_SHORT;
    };
    let tables = Tables {
        resources,
        statements,
        index,
        text,
    };
    let n = ResourceId(number);
    let a = name_answer(table::name_span(c, tables, n));
    reply[0] = a.start;
    reply[1] = a.size;
    a.result
}

// Read a statement: subject, predicate, object, and 1 if it is retracted, else 0.
pub fn lt_statement(
    counters: &[u32],
    resources: &[u32],
    statements: &[u32],
    index: &[u32],
    text: &[u8],
    number: u32,
    reply: &mut [u32],
) -> u32
    ensures { done result reply.new ≡ statement_call counters.now
        (lent resources.entry statements.entry index.entry text.entry) number reply.old }
{
    let Some(c) = counters_beside(counters, reply, STATEMENT_REPLY_WORDS) else {
        return TOO_SHORT;
    };
    let tables = Tables {
        resources,
        statements,
        index,
        text,
    };
    let n = StatementId(number);
    let a = statement_answer(table::read_statement(c, tables, n));
    reply[0] = a.subject;
    reply[1] = a.predicate;
    reply[2] = a.object;
    reply[3] = a.flag;
    a.result
}

// Reads the line at the position `at` of a text. Refusal 10: its offset in the line stands after the position.
pub fn lt_read_line(text: &[u8], at: usize, reply: &mut [u64]) -> u32
    ensures { done result reply.new ≡ line_call text.now at reply.old }
{
    if reply.len() < LINE_WORDS {
        return TOO_SHORT;
    }
    let read = ntriples::read_line(text, at);
    let a = line_answer(read.line, read.next);
    reply[0] = a.what;
    reply[1] = a.next;
    reply[2] = a.subject.start;
    reply[3] = a.subject.size;
    reply[4] = a.predicate.start;
    reply[5] = a.predicate.size;
    reply[6] = a.object.start;
    reply[7] = a.object.size;
    a.result
}

// Retract: the number of the statement that was live until now, or 0.
pub fn lt_retract(
    counters: &[u32],
    resources: &mut [u32],
    statements: &mut [u32],
    index: &[u32],
    text: &[u8],
    subject: u32,
    predicate: u32,
    object: u32,
    reply: &mut [u32],
) -> u32
    ensures { wrote result (tables resources.new statements.new index.now text.now) reply.new
        ≡ retract_call counters.now (tables resources.old statements.old index.now text.now)
        (triple subject predicate object) reply.old }
{
    let Some(c) = counters_beside(counters, reply, NUMBER_REPLY_WORDS) else {
        return TOO_SHORT;
    };
    let x = triple_of(subject, predicate, object);
    let a = retract_answer(statement::retract(c, resources, statements, index, text, x));
    reply[0] = a.number;
    a.result
}

// Open a pattern scan, 0 for any: the cursor, which stays as it was beside a refusal.
pub fn lt_scan_open(
    counters: &[u32],
    resources: &[u32],
    statements: &[u32],
    index: &[u32],
    text: &[u8],
    subject: u32,
    predicate: u32,
    object: u32,
    cursor: &mut [u32],
) -> u32
    ensures { done result cursor.new ≡ open_call counters.now
        (lent resources.entry statements.entry index.entry text.entry) (triple subject predicate object)
        cursor.old }
{
    let Some(c) = counters_beside(counters, cursor, CURSOR_WORDS) else {
        return TOO_SHORT;
    };
    let tables = Tables {
        resources,
        statements,
        index,
        text,
    };
    let x = triple_of(subject, predicate, object);
    match scan::scan_open(c, tables, x) {
        Ok(q) => {
            put_cursor(cursor, q);
            0
        }
        Err(e) => refusal_number(e),
    }
}

// Next of a pattern scan: status (1 found, 2 ended, 3 spent), statement or 0, visits; the cursor moves on.
pub fn lt_scan_next(
    counters: &[u32],
    resources: &[u32],
    statements: &[u32],
    index: &[u32],
    text: &[u8],
    cursor: &mut [u32],
    budget: u32,
    reply: &mut [u32],
) -> u32
    ensures { beside result cursor.new reply.new
        ≡ next_call counters.now (lent resources.entry statements.entry index.entry text.entry)
        cursor.old budget reply.old }
{
    let Some(c) = counters_beside(counters, reply, SCAN_REPLY_WORDS) else {
        return TOO_SHORT;
    };
    if cursor.len() < CURSOR_WORDS {
        return TOO_SHORT;
    }
    let tables = Tables {
        resources,
        statements,
        index,
        text,
    };
    let next = next_from(c, tables, cursor, budget);
    let a = scanned_answer(next);
    reply[0] = a.status;
    reply[1] = a.number;
    reply[2] = a.visits;
    match next {
        Ok(scanned) => {
            // One word is enough: an answered next moves the cursor's record, word 4, and leaves its pattern, chain and
            // number of reclaims as they were read.
            let q = scanned_cursor(Ok(scanned));
            cursor[4] = q.next.0;
            0
        }
        Err(_) => a.result,
    }
}

// Assert: status (1 new, 2 already, 3 revived) and the statement's number; counters and tables as answered.
pub fn lt_assert(
    counters: &mut [u32],
    resources: &mut [u32],
    statements: &mut [u32],
    index: &[u32],
    text: &[u8],
    subject: u32,
    predicate: u32,
    object: u32,
    reply: &mut [u32],
) -> u32
    ensures { changed result counters.new (tables resources.new statements.new index.now text.now)
        reply.new
        ≡ assert_call counters.old (tables resources.old statements.old index.now text.now)
        (triple subject predicate object) reply.old }
{
    let Some(c) = counters_beside(counters, reply, ASSERT_REPLY_WORDS) else {
        return TOO_SHORT;
    };
    let x = triple_of(subject, predicate, object);
    let done = statement::assert(c, resources, statements, index, text, x);
    let a = assert_answer(done);
    reply[0] = a.status;
    reply[1] = a.number;
    match done {
        Ok(asserted) => {
            put_counters(counters, asserted_counters(Ok(asserted)));
            0
        }
        Err(_) => a.result,
    }
}

// Enter a name: its number, old or new; counters and tables as answered.
pub fn lt_enter(
    counters: &mut [u32],
    resources: &mut [u32],
    statements: &[u32],
    index: &mut [u32],
    text: &mut [u8],
    name: &[u8],
    reply: &mut [u32],
) -> u32
    ensures { EnterCall counters.old (tables resources.old statements.now index.old text.old)
        (tables resources.new statements.now index.new text.new) name.now reply.old
        (beside result counters.new reply.new) }
{
    let Some(c) = counters_beside(counters, reply, NUMBER_REPLY_WORDS) else {
        return TOO_SHORT;
    };
    let entered = dictionary::intern(c, resources, statements, index, text, name);
    let told = enter_answer(entered);
    reply[0] = told.number;
    match entered {
        Ok(name) => {
            put_counters(counters, name.counters);
            0
        }
        Err(_) => told.result,
    }
}
