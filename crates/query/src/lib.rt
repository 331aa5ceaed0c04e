// Queries, the paper's question of several patterns: open and next, on tables, words and cursors that hold anything.
// Nothing is written.
//
// The words are passed at each call, and the cursor holds none of them: a cursor of another query, or of another
// store, is judged by refusals 13 and 6 alone. Refusals, in the order tested: open 1, 8; next 1, 8, 13, 6, 7, 9.
#![tactic(auto)]

ghost use Rattle.std.specs.Prelude.{◌≡◌};
ghost use Rattle.table.specs.Lent.{held};
ghost use Rattle.graph.specs.Query.{open_query_of, next_query_of};

use crate::resume::resume;
use graph::{Progress, QueryAnswer, QueryCursor};
use pattern::words::words_ok;
use pattern_place::place::place_ok;
use query_stack::stack::no_levels;
use store::{Counters, Refusal};
use table::fits;
use table::lent::Tables;

mod resume;

// Open a query: 1; 8 if the words are no query; else the cursor before the first solution, with the number of reclaims.
pub fn query_open(c: Counters, tables: Tables, words: &[u32]) -> Result<QueryCursor, Refusal>
    ensures { result ≡ open_query_of c (held tables.entry) words.now }
{
    if !fits(c, tables) {
        return Err(Refusal::Capacity);
    }
    if !words_ok(c.resources, words) {
        return Err(Refusal::BadQuery);
    }
    Ok(no_levels(c.generation, Progress::Start))
}

// Next of a query: 1; 8; 13 if the cursor, at the start and at the end too, has another number of reclaims; 6; 7 if the
// budget is 0; 9; else found, ended or spent, with the visits made and the cursor from now on.
pub fn query_next(
    c: Counters,
    tables: Tables,
    words: &[u32],
    q: QueryCursor,
    budget: u32,
) -> Result<QueryAnswer, Refusal>
    ensures { result ≡ next_query_of c (held tables.entry) words.now q budget }
{
    if !fits(c, tables) {
        return Err(Refusal::Capacity);
    }
    if !words_ok(c.resources, words) {
        return Err(Refusal::BadQuery);
    }
    if q.generation != c.generation {
        return Err(Refusal::StaleCursor);
    }
    match place_ok(c, tables.statements, words, q) {
        None => Err(Refusal::BadCursor),
        Some(b) => {
            if budget == 0 {
                return Err(Refusal::NoBudget);
            }
            resume(c, tables.resources, tables.statements, words, q, b, budget)
        }
    }
}
