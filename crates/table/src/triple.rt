// Three numbers: the one at a position, and the tests that statements and patterns are put to. Nothing here reads a
// table.
ghost use Rattle.std.specs.Prelude.{◌≡◌, ◌||◌, eqb};
ghost use Rattle.store.specs.Shared.{at, within, same, agrees};

use store::{Position, ResourceId, Triple};

// The number at a position.
pub fn at(p: Position, x: Triple) -> ResourceId
    ensures { result.0 ≡ at p x }
{
    match p {
        Position::Subject => x.subject,
        Position::Predicate => x.predicate,
        Position::Object => x.object,
    }
}

// Whether a pattern's number y admits the number z: 0 stands for any.
pub fn admits(y: ResourceId, z: ResourceId) -> bool
    ensures { result ≡ (eqb y.0 0 || eqb z.0 y.0) }
{
    y.0 == 0 || z == y
}

// Whether no number exceeds n.
#[tactic(auto, unfolding(store::specs::Shared::within))]
pub fn within(n: u32, x: Triple) -> bool
    ensures { result ≡ within n x }
{
    x.subject.0 <= n && x.predicate.0 <= n && x.object.0 <= n
}

// Whether t has the same three numbers as x. A function beside `==`, since its clause has the word of the definitions of
// chains and walks.
#[tactic(auto, unfolding(store::specs::Shared::same))]
pub fn same(x: Triple, t: Triple) -> bool
    ensures { result ≡ same x t }
{
    t == x
}

// Whether t has the number of the pattern x at each position that x binds.
#[tactic(auto, unfolding(store::specs::Shared::agrees))]
pub fn agrees(x: Triple, t: Triple) -> bool
    ensures { result ≡ agrees x t }
{
    admits(x.subject, t.subject) && admits(x.predicate, t.predicate) && admits(x.object, t.object)
}
