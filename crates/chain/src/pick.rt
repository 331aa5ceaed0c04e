// Chains, for a position in general: which one is picked for a pattern, and where it starts (paper 01, "9 in a chain
// step").
//
// Each function asks that the records it reads lie in their tables, and nothing of what they hold: a word out of range
// is an answer. The fact is asked and no type has it: pattern and table come together here alone.
ghost use Rattle.std.specs.Prelude.{◌≡◌, true, ◌&&◌, ◌||◌, eqb, leb};
ghost use Rattle.store.specs.Shared.{at, better};
ghost use Rattle.store.specs.Tables.{first_at, count_at};
ghost use Rattle.store.specs.Walk.{pick_chain, pickable, start_of};
ghost use Rattle.store.specs.Scan.{chain_ok};
ghost use Rattle.chain.specs.Chains.{PatternHeld, bound};

use store::{Chain, Position, StatementId, Triple};
use table::triple::at;
use table::word::{count_at, first_at};

// One position more to pick from: the bound one of less count, ties to the earlier.
pub fn better(resources: &[u32], x: Triple, q: Position, best: Chain) -> Chain
    requires { PatternHeld resources.now x × (bound best x ≡ true) }
    ensures { result ≡ better x (λ (p : Position). count_at resources.now p (at p x)) q best }
{
    let y = at(q, x);
    if y.0 == 0 {
        return best;
    }
    match best {
        Chain::All => Chain::By(q),
        Chain::By(p) => {
            let z = at(p, x);
            if count_at(resources, y, q) < count_at(resources, z, p) {
                Chain::By(q)
            } else {
                Chain::By(p)
            }
        }
    }
}

// The bound position of least count, or all records where nothing is bound.
pub fn pick_chain(resources: &[u32], x: Triple) -> Chain
    requires { PatternHeld resources.now x }
    ensures { result ≡ pick_chain resources.now x }
{
    let s = better(resources, x, Position::Subject, Chain::All);
    let p = better(resources, x, Position::Predicate, s);
    better(resources, x, Position::Object, p)
}

// Whether the count and the first at a position are at most T, or the position is not bound.
pub fn pickable_at(t: u32, resources: &[u32], x: Triple, p: Position) -> bool
    requires { PatternHeld resources.now x }
    ensures { result
        ≡ (eqb (at p x) 0
        || (leb (count_at resources.now p (at p x)) t && leb (first_at resources.now p (at p x)) t)) }
{
    let y = at(p, x);
    y.0 == 0 || (count_at(resources, y, p) <= t && first_at(resources, y, p).0 <= t)
}

// Whether a chain can be picked; where not, an operation refuses 9.
#[tactic(auto, unfolding(store::specs::Walk::pickable))]
pub fn pickable(t: u32, resources: &[u32], x: Triple) -> bool
    requires { PatternHeld resources.now x }
    ensures { result ≡ pickable t resources.now x }
{
    pickable_at(t, resources, x, Position::Subject)
        && pickable_at(t, resources, x, Position::Predicate)
        && pickable_at(t, resources, x, Position::Object)
}

// A chain's first record.
pub fn start_of(t: u32, resources: &[u32], chain: Chain, x: Triple) -> StatementId
    requires { PatternHeld resources.now x × (bound chain x ≡ true) }
    ensures { result.0 ≡ start_of t resources.now chain x }
{
    match chain {
        Chain::All => StatementId(t),
        Chain::By(p) => {
            let y = at(p, x);
            first_at(resources, y, p)
        }
    }
}

// Whether a cursor on a pattern may be on a chain: by a bound position, or all records where nothing is bound.
#[tactic(auto, unfolding(store::specs::Scan::chain_ok))]
pub fn chain_ok(chain: Chain, x: Triple) -> bool
    ensures { result ≡ chain_ok chain x }
{
    match chain {
        Chain::All => x.subject.0 == 0 && x.predicate.0 == 0 && x.object.0 == 0,
        Chain::By(p) => at(p, x).0 != 0,
    }
}
