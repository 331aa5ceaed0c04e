// What assert and retract find before anything is written: the record with the triple, or a refusal (paper 01,
// "Assert", "Retract"; 02, note 5).
ghost use Rattle.std.specs.Prelude.{◌≡◌, ◌&&◌, [], ◌*◌, ◌≤◌, length, leb};
ghost use Rattle.store.specs.Tables.{tables, statement_words, count_at, live_at};
ghost use Rattle.store.specs.Walk.{pickable};
ghost use Rattle.store.specs.Statement.{countable, locate, kinds_ok};
ghost use Rattle.table.specs.Held.{ResourceHeld, TripleHeld};
ghost use Rattle.table.specs.Lent.{held};
ghost use Rattle.chain_walk.specs.Walks.{sought_as};
ghost use Rattle.statement_target.specs.Targets.{assert_target, retract_target};

use chain::pick::{pick_chain, pickable, start_of};
use chain::plan::Plan;
use chain_walk::walk::seek;
use store::{Counters, Position, Refusal, ResourceId, StatementId, Triple};
use table::lent::Tables;
use table::word::{count_at, kind_at, kinds_permitted, live_at};
use table::{fits, in_range, known};

// Whether the live count of resource y at a position is at most its count.
pub fn countable_at(resources: &[u32], y: ResourceId, p: Position) -> bool
    requires { ResourceHeld resources.now y.0 }
    ensures { result ≡ leb (live_at resources.now p y.0) (count_at resources.now p y.0) }
{
    live_at(resources, y, p) <= count_at(resources, y, p)
}

// Whether no live count of a triple's resources is above its count.
#[tactic(auto, unfolding(store::specs::Statement::countable))]
pub fn countable(resources: &[u32], x: Triple) -> bool
    requires { TripleHeld resources.now x }
    ensures { result ≡ countable resources.now x }
{
    countable_at(resources, x.subject, Position::Subject)
        && countable_at(resources, x.predicate, Position::Predicate)
        && countable_at(resources, x.object, Position::Object)
}

// Whether the walk may begin: firsts and counts are within T, live counts within the counts. Where not, assert and
// retract refuse 9; a scan asks for the former alone.
pub fn ready(t: u32, resources: &[u32], x: Triple) -> bool
    requires { TripleHeld resources.now x }
    ensures { result ≡ (pickable t resources.now x && countable resources.now x) }
{
    pickable(t, resources, x) && countable(resources, x)
}

// The record with a triple, by the chain that a scan would take, retracted or not.
pub fn locate(
    c: Counters,
    resources: &[u32],
    statements: &[u32],
    x: Triple,
) -> Result<Option<StatementId>, Refusal>
    requires { TripleHeld resources.now x × (statement_words * c.statements ≤ length statements.now) }
    ensures { result ≡ sought_as (locate c (tables resources.now statements.now [] []) x) }
{
    if !ready(c.statements, resources, x) {
        return Err(Refusal::Damaged);
    }
    let chain = pick_chain(resources, x);
    let first = start_of(c.statements, resources, chain, x);
    let plan = Plan::new(chain, x);
    seek(statements, c.resources, plan, first)
}

// Whether the kinds of all three resources are in 1..=3.
#[tactic(auto, unfolding(store::specs::Statement::kinds_ok, store::specs::Reading::in_range))]
pub fn kinds_ok(resources: &[u32], x: Triple) -> bool
    requires { TripleHeld resources.now x }
    ensures { result ≡ kinds_ok resources.now x }
{
    in_range(store::LITERAL, kind_at(resources, x.subject))
        && in_range(store::LITERAL, kind_at(resources, x.predicate))
        && in_range(store::LITERAL, kind_at(resources, x.object))
}

// What assert finds before it writes: the record with the triple, if there is one.
pub fn assert_target(c: Counters, tables: Tables, x: Triple) -> Result<Option<StatementId>, Refusal>
    ensures { result ≡ assert_target c (held tables.entry) x }
{
    if !fits(c, tables) {
        return Err(Refusal::Capacity);
    }
    if !known(c.resources, x) {
        return Err(Refusal::UnknownNumber);
    }
    if !kinds_ok(tables.resources, x) {
        return Err(Refusal::Damaged);
    }
    if !kinds_permitted(tables.resources, x) {
        return Err(Refusal::KindNotPermitted);
    }
    locate(c, tables.resources, tables.statements, x)
}

// What retract finds before it writes: the record with the triple, if there is one.
pub fn retract_target(
    c: Counters,
    tables: Tables,
    x: Triple,
) -> Result<Option<StatementId>, Refusal>
    ensures { result ≡ retract_target c (held tables.entry) x }
{
    if !fits(c, tables) {
        return Err(Refusal::Capacity);
    }
    if !known(c.resources, x) {
        return Err(Refusal::UnknownNumber);
    }
    locate(c, tables.resources, tables.statements, x)
}
