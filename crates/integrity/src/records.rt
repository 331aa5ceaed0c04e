// The pass over the statement records, one by one: resources in 1..R, permitted kinds, flag 0 or 1.
ghost use Rattle.std.specs.Prelude.{◌≡◌, ◌-◌, ◌≤◌, ◌<◌};
ghost use Rattle.store.specs.Lists.{all_below};
ghost use Rattle.integrity.specs.Records.{record_ok};

use crate::held::{Resources, Statements};
use store::StatementId;

// Whether record n is right by itself. Its number is one of the records by the loop that calls.
fn record_ok(resources: Resources, statements: Statements, n: StatementId) -> bool
    requires n_known { (1 ≤ n.0) × (n.0 ≤ statements.count) }
    ensures { result ≡ record_ok resources.entry.count resources.entry.words.now statements.entry.words.now (n.0 - 1) }
{
    let x = table::word::triple_at(statements.words, n);
    if !table::known(resources.count, x) {
        return false;
    }
    if !table::word::kinds_permitted(resources.words, x) {
        return false;
    }
    table::word::flag_at(statements.words, n) <= 1
}

// Whether each record is right by itself.
pub fn each_ok(resources: Resources, statements: Statements) -> bool
    ensures { result ≡ all_below (record_ok resources.entry.count resources.entry.words.now statements.entry.words.now)
        statements.entry.count }
{
    for done in 0..statements.count {
        if !record_ok(resources, statements, StatementId(done + 1)) {
            return false;
        }
    }
    true
}
