// The soundness check: whether the counters and the four tables are sound, on tables that hold anything.
//
// Tested in this order, each part only where those before it hold:
// - the counters are within capacity and the reclaims at most 65,535;
// - the text is R names without the string ending, with right offsets and kinds;
// - the index holds 1..R in rising order of name;
// - each record has resources in 1..R, permitted kinds and a flag 0 or 1;
// - the chains fall, hold their resource and have as many records as the counts say, which add up to T, and as many live ones as the live
//   counts say;
// - no triple stands twice.
//
// One pass over each table and over the chains at each position, so linear in R + T + B, but for the last test: for
// each record it walks the shortest of its three chains below it. Nothing is written, and no working memory is asked
// for.
#![tactic(auto)]

ghost use Rattle.std.specs.Prelude.{◌≡◌, true, ◌↔◌};
ghost use Rattle.store.specs.Soundness.{Sound};
ghost use Rattle.table.specs.Lent.{held};
ghost use Rattle.integrity.specs.Records.{records_ok};
ghost use Rattle.integrity.specs.Check.{check_of};

use crate::held::{Resources, Statements};
use store::Counters;
use table::lent::Tables;

mod chains;
mod held;
mod index;
mod names;
mod records;
mod unique;

// Whether the statement records, their chains, counts and live counts are right.
fn records_ok(resources: Resources, statements: Statements) -> bool
    ensures { result ≡ records_ok resources.entry.count statements.entry.count
        resources.entry.words.now statements.entry.words.now }
{
    if !records::each_ok(resources, statements) {
        return false;
    }
    if !chains::all_chains_sound(resources, statements) {
        return false;
    }
    unique::all_stand_once(resources, statements)
}

// All tests, in order.
fn verdict(c: Counters, tables: Tables) -> bool
    ensures { result ≡ check_of c (held tables.entry) }
{
    if !table::fits(c, tables) {
        return false;
    }
    let end = c.text as usize;
    let used = &tables.text[..end];
    let resources = Resources {
        words: tables.resources,
        count: c.resources,
    };
    if !names::names_ok(resources, used) {
        return false;
    }
    if !index::index_ok(resources, tables.index, used) {
        return false;
    }
    let statements = Statements {
        words: tables.statements,
        count: c.statements,
    };
    records_ok(resources, statements)
}

// The check: true exactly if the store is sound. It refuses nothing.
pub fn check(c: Counters, tables: Tables) -> bool
    ensures { (result ≡ true) ↔ Sound c (held tables.entry) }
{
    verdict(c, tables)
}
