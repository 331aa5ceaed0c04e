// The second opening of a query: its most selective pattern first (paper 02, note 11). The words are arranged in place,
// so that a caller goes on with words that fit the cursor.
#![tactic(auto)]

ghost use Rattle.std.specs.Prelude.{◌≡◌};
ghost use Rattle.table.specs.Lent.{held};
ghost use Rattle.graph.specs.Arranging.{arranged_with, arrange_of};

use crate::front::to_front;
use crate::least::{all_countable, least_at};
use graph::{Progress, QueryCursor};
use pattern::words::words_ok;
use query_stack::stack::no_levels;
use store::{Counters, Refusal};
use table::fits;
use table::lent::Tables;

mod front;
mod least;

// Open a query with the pattern first whose least count over the places where it has a resource number is smallest, T for
// a pattern of variables alone, of equals the earlier; the rest as given. Refusals, in the order tested: 1; 8; 9 if a count
// at any place with a resource number is above T. Beside a refusal nothing is written.
pub fn query_open_arranged(
    c: Counters,
    tables: Tables,
    words: &mut [u32],
) -> Result<QueryCursor, Refusal>
    ensures { arranged_with words.new result ≡ arrange_of c (held tables.entry) words.old }
{
    if !fits(c, tables) {
        return Err(Refusal::Capacity);
    }
    if !words_ok(c.resources, words) {
        return Err(Refusal::BadQuery);
    }
    if !all_countable(c.statements, tables.resources, words) {
        return Err(Refusal::Damaged);
    }
    let i = least_at(c.statements, tables.resources, words);
    // Nothing is written where the first pattern stays first.
    if i > 0 {
        to_front(words, i);
    }
    Ok(no_levels(c.generation, Progress::Start))
}
