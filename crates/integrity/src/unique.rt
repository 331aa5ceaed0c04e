// No triple twice: below each record, down the shortest of its three chains, no record has its triple, live or not.
ghost use Rattle.std.specs.Prelude.{◌≡◌, true, ◌-◌, ◌≤◌};
ghost use Rattle.store.specs.Shared.{known};
ghost use Rattle.store.specs.Lists.{all_below};
ghost use Rattle.store.specs.Tables.{triple_at};
ghost use Rattle.integrity.specs.Records.{record_ok, shortest, stands_once_on, stands_once};

use crate::held::{Resources, Statements};
use store::{Position, StatementId, Triple};

// The position of a triple's shortest chain.
fn shortest(resources: Resources, x: Triple) -> Position
    requires x_value { known resources.count x ≡ true }
    ensures { result ≡ shortest resources.entry.words.now x }
{
    let s = table::word::count_at(resources.words, x.subject, Position::Subject);
    let p = table::word::count_at(resources.words, x.predicate, Position::Predicate);
    let o = table::word::count_at(resources.words, x.object, Position::Object);
    if p < s {
        if o < p {
            return Position::Object;
        }
        return Position::Predicate;
    }
    if o < s {
        return Position::Object;
    }
    Position::Subject
}

// Whether no record below record n on its chain at p has its triple.
fn stands_once_on(statements: Statements, n: StatementId, p: Position) -> bool
    requires n_known { (1 ≤ n.0) × (n.0 ≤ statements.count) }
    ensures { result ≡ stands_once_on statements.entry.words.now p (n.0 - 1) }
{
    let x = table::word::triple_at(statements.words, n);
    let mut above = n;
    // A loop: the next record is read in the last one, down to none.
    // On its chain at p no record below n, down to `above`, has its triple.
    loop {
        let m = table::word::next_at(statements.words, above, p);
        if m.0 >= above.0 {
            return false;
        }
        if m.0 == 0 {
            return true;
        }
        if table::triple::same(x, table::word::triple_at(statements.words, m)) {
            return false;
        }
        above = m;
    }
}

// Whether no record below record n has its triple, by its shortest chain.
fn stands_once(resources: Resources, statements: Statements, n: StatementId) -> bool
    requires n_value { known resources.count (triple_at statements.words.now (n.0 - 1)) ≡ true }
    requires n_known { (1 ≤ n.0) × (n.0 ≤ statements.count) }
    ensures { result ≡ stands_once resources.entry.words.now statements.entry.words.now (n.0 - 1) }
{
    let x = table::word::triple_at(statements.words, n);
    let p = shortest(resources, x);
    stands_once_on(statements, n, p)
}

// Whether no triple stands twice.
pub fn all_stand_once(resources: Resources, statements: Statements) -> bool
    requires each_ok { all_below (record_ok resources.count resources.words.now statements.words.now) statements.count ≡ true }
    ensures { result ≡ all_below (stands_once resources.entry.words.now statements.entry.words.now) statements.entry.count }
{
    for done in 0..statements.count {
        if !stands_once(resources, statements, StatementId(done + 1)) {
            return false;
        }
    }
    true
}
