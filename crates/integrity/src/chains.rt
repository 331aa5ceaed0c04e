// The pass over the chains at one position: from each resource's first, by next, falling, with the resource in every
// record, as many as its count says and as many live ones as its live count says; and the counts add up to the number
// of records. So every record is on its chain and nothing else is, and the live ones met are all that the resource has
// there.
ghost use Rattle.std.specs.Prelude.{◌≡◌, ◌≤◌};
ghost use Rattle.store.specs.Shared.{all3};
ghost use Rattle.integrity.specs.Records.{chain_counts, chain_sound, chains_sound};

use crate::held::{Resources, Statements};
use store::{Position, ResourceId, StatementId};

// Whether the chain from record `first` on falls, holds y in every record, and has `count` records, `live` of them
// live.
fn chain_counts(
    statements: Statements,
    p: Position,
    y: ResourceId,
    first: StatementId,
    count: u32,
    live: u32,
) -> bool
    requires first_known { first.0 ≤ statements.count }
    ensures { result ≡ chain_counts statements.entry.count statements.entry.words.now p y.0 first.0 count live }
{
    let mut n = first;
    let mut met: u32 = 0;
    let mut alive: u32 = 0;
    // A while: the next record is read in the last one, down to none.
    // The chain from `first` down to n, n not included, falls and holds y; it has `met` records, `alive` of them live.
    while n.0 != 0 {
        if table::word::term_at(statements.words, n, p).0 != y.0 {
            return false;
        }
        let m = table::word::next_at(statements.words, n, p);
        if m.0 >= n.0 {
            return false;
        }
        met += 1;
        alive += (table::word::flag_at(statements.words, n) == 0) as u32;
        n = m;
    }
    met == count && alive == live
}

// Whether the chain of resource y is right.
fn chain_sound(resources: Resources, statements: Statements, p: Position, y: ResourceId) -> bool
    requires y_known { (1 ≤ y.0) × (y.0 ≤ resources.count) }
    ensures { result ≡ chain_sound statements.entry.count resources.entry.words.now statements.entry.words.now p y.0 }
{
    let first = table::word::first_at(resources.words, y, p);
    if first.0 > statements.count {
        return false;
    }
    let count = table::word::count_at(resources.words, y, p);
    let live = table::word::live_at(resources.words, y, p);
    chain_counts(statements, p, y, first, count, live)
}

// Whether the chains at a position are right, and hold every record between them.
fn chains_sound(resources: Resources, statements: Statements, p: Position) -> bool
    ensures { result ≡ chains_sound resources.entry.count statements.entry.count
        resources.entry.words.now statements.entry.words.now p }
{
    let mut total: usize = 0;
    // The chains of the first `done` resources are right, and their counts add up to `total`.
    for done in 0..resources.count {
        let y = ResourceId(done + 1);
        if !chain_sound(resources, statements, p, y) {
            return false;
        }
        total += table::word::count_at(resources.words, y, p) as usize;
    }
    total == statements.count as usize
}

// Whether the chains at all three positions are right.
pub fn all_chains_sound(resources: Resources, statements: Statements) -> bool
    ensures { result ≡ all3 (chains_sound resources.entry.count statements.entry.count
        resources.entry.words.now statements.entry.words.now) }
{
    if !chains_sound(resources, statements, Position::Subject) {
        return false;
    }
    if !chains_sound(resources, statements, Position::Predicate) {
        return false;
    }
    chains_sound(resources, statements, Position::Object)
}
