// Reclaim (paper 02, note 6): the room of retracted statements is given back.
//
// The live statements move down in their order and are numbered from 1, chains and counts are built anew, the words of
// the records given up are 0, names stay. Refusals, tested in this order, nothing written beside one: 1; 14 after
// 65,535 reclaims; 9 where the store is not sound. After the check one pass over the resources and one over the
// statements, in place; no working memory is asked for. The tables are four slices: index and text are only read, and
// a struct of four that may be written would ask more of callers.
#![tactic(auto)]

ghost use Rattle.std.specs.Prelude.{◌≡◌, ◌≤◌};
ghost use Rattle.store.specs.Tables.{tables};
ghost use Rattle.store.specs.Shared.{max_statements};
ghost use Rattle.store.specs.Soundness.{Linked};
ghost use Rattle.store.specs.Reclaim.{swept, ReclaimAnswer};
ghost use Rattle.compaction.specs.Steps.{compacted};

use store::{Counters, Refusal};
use table::lent::Tables;

mod clear;
mod sweep;

// Chains and counts cleared, the live records moved down and linked anew, the words of the others set to 0. How many
// are live.
fn compact(resources: &mut [u32], statements: &mut [u32], r: u32, t: u32) -> u32
    requires { Linked r t resources.old statements.old × (t ≤ max_statements) }
    ensures { swept result resources.new statements.new
        ≡ compacted r t resources.old statements.old }
{
    clear::unlink_all(resources, r);
    let live = sweep::sweep(resources, statements, t);
    clear::blank(statements, live, t);
    live
}

// Reclaim: the counters from now on, one reclaim more among them.
pub fn reclaim(
    c: Counters,
    resources: &mut [u32],
    statements: &mut [u32],
    index: &[u32],
    text: &[u8],
) -> Result<Counters, Refusal>
    ensures { ReclaimAnswer c (tables resources.old statements.old index.now text.now)
        (tables resources.new statements.new index.now text.now) result }
{
    let tables = Tables {
        resources,
        statements,
        index,
        text,
    };
    if !table::fits(c, tables) {
        return Err(Refusal::Capacity);
    }
    if c.generation >= Counters::MAX_RECLAIMS {
        return Err(Refusal::ReclaimLimit);
    }
    if !integrity::check(c, tables) {
        return Err(Refusal::Damaged);
    }
    let live = compact(resources, statements, c.resources, c.statements);
    let generation = c.generation + 1;
    Ok(Counters {
        statements: live,
        generation,
        ..c
    })
}
