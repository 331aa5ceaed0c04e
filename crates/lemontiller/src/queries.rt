// Queries for C: the paper's question of several patterns, its words lent at each call, its cursor as words.
//
// Nothing of the tables is written. The contracts are one equation each with the definitions in `specs/QueryCalls.antt`
// of `capi_calls`.
ghost use Rattle.std.specs.Prelude.{◌≡◌, ◌≤◌, length};
ghost use Rattle.store.specs.Tables.{lent};
ghost use Rattle.table.specs.Lent.{held};
ghost use Rattle.capi_calls.specs.Words.{done, beside};
ghost use Rattle.capi_calls.specs.QueryWords.{query_cursor_words, next_query_from};
ghost use Rattle.capi_calls.specs.QueryCalls.{query_open_call, query_next_call};

use capi_calls::{QUERY_CURSOR_WORDS, QUERY_REPLY_WORDS, TOO_SHORT};
use capi_query_words::queries::{put_query_answer, put_query_cursor, query_cursor_of, spelt};
use capi_words::words::counters_beside;
use graph::QueryAnswer;
use query::{query_next, query_open};
use store::{Counters, Refusal, refusal_number};
use table::lent::Tables;

// Next of a query from a cursor's words. Words that tell no cursor are refused 6, after refusals 1, 8 and 13.
fn query_from(
    c: Counters,
    tables: Tables,
    words: &[u32],
    cursor: &[u32],
    budget: u32,
) -> Result<QueryAnswer, Refusal>
    requires { query_cursor_words ≤ length cursor.now }
    ensures { result ≡ next_query_from c (held tables.entry) words.now cursor.now budget }
{
    if spelt(cursor) {
        let q = query_cursor_of(cursor);
        return query_next(c, tables, words, q, budget);
    }
    query_open(c, tables, words)?;
    if cursor[2] != c.generation {
        return Err(Refusal::StaleCursor);
    }
    Err(Refusal::BadCursor)
}

// Open a query: the cursor at the start, with the number of reclaims, which stays as it was beside a refusal (1, 8).
pub fn lt_query_open(
    counters: &[u32],
    resources: &[u32],
    statements: &[u32],
    index: &[u32],
    text: &[u8],
    words: &[u32],
    cursor: &mut [u32],
) -> u32
    ensures { done result cursor.new ≡ query_open_call counters.now
        (lent resources.entry statements.entry index.entry text.entry) words.now cursor.old }
{
    let Some(c) = counters_beside(counters, cursor, QUERY_CURSOR_WORDS) else {
        return TOO_SHORT;
    };
    let tables = Tables {
        resources,
        statements,
        index,
        text,
    };
    match query_open(c, tables, words) {
        Ok(q) => {
            put_query_cursor(cursor, q);
            0
        }
        Err(e) => refusal_number(e),
    }
}

// Next of a query: status, visits, the number of each variable; the cursor moves on, and stays as it was beside a
// refusal (1, 8, 13, 6, 7, 9).
pub fn lt_query_next(
    counters: &[u32],
    resources: &[u32],
    statements: &[u32],
    index: &[u32],
    text: &[u8],
    words: &[u32],
    cursor: &mut [u32],
    budget: u32,
    reply: &mut [u32],
) -> u32
    ensures { beside result cursor.new reply.new
        ≡ query_next_call counters.now (lent resources.entry statements.entry index.entry text.entry)
        words.now cursor.old budget reply.old }
{
    let Some(c) = counters_beside(counters, reply, QUERY_REPLY_WORDS) else {
        return TOO_SHORT;
    };
    if cursor.len() < QUERY_CURSOR_WORDS {
        return TOO_SHORT;
    }
    let tables = Tables {
        resources,
        statements,
        index,
        text,
    };
    let a = query_from(c, tables, words, cursor, budget);
    put_query_answer(reply, a);
    match a {
        Ok(answer) => {
            put_query_cursor(cursor, answer.cursor);
            0
        }
        Err(e) => refusal_number(e),
    }
}
