// Stores: a new record at the head of its three chains, a record's flag and the live counts that go with it (paper 01,
// "Tables and counters"; 02, note 5).
//
// Everything that a store needs is read before it. A new record's nexts are the old firsts; each position is linked,
// and each live count moved, by the same function.
ghost use Rattle.std.specs.Prelude.{◌≡◌, true, suc, ◌-◌, ◌*◌, ◌/◌, ◌≤◌, min, length, ltb, Ok};
ghost use Rattle.store.specs.Tables.{statement_words};
ghost use Rattle.store.specs.Shared.{max_statements};
ghost use Rattle.store.specs.Statement.{append_record, link_first, link_record, tally_at, tally, counting};
ghost use Rattle.table.specs.Held.{StatementHeld, TripleHeld};
ghost use Rattle.statement_record.specs.Records.{flagged, moved, Movable, Tallyable, AllTallyable};
ghost use Rattle.statement_record.specs.Records.{Linkable, AllLinkable, Appendable};
ghost use Rattle.statement_record.specs.Records.{Appended, Revived, RecordRetracted};

use store::{Asserted, Counters, Position, Refusal, ResourceId, StatementId, Triple};
use table::word::{
    COUNT, FLAG, LIVE, NEXT, RESOURCE_WORDS, STATEMENT_WORDS, count_at, first_at, flag_at, live_at,
    offset,
};

// The flag of record n.
pub fn set_flag(statements: &mut [u32], n: StatementId, flag: u32)
    requires { StatementHeld statements.old n.0 }
    ensures { statements.new ≡ flagged statements.old (n.0 - 1) flag }
{
    let i = STATEMENT_WORDS * (n.0 as usize - 1) + FLAG;
    statements[i] = flag;
}

// A live count with one more, or with one less: a Bool, as the definition has it, since a closure that adds or takes one
// would say it in more words.
pub fn moved(count: u32, up: bool) -> u32
    requires { Movable up count }
    ensures { result ≡ moved up count }
{
    if up { count + 1 } else { count - 1 }
}

// The live count of resource y at a position, one up or one down.
pub fn tally_at(resources: &mut [u32], p: Position, y: ResourceId, up: bool)
    requires { Tallyable up resources.old p y.0 }
    ensures { resources.new ≡ tally_at (moved up) p y.0 resources.old }
{
    let live = live_at(resources, y, p);
    let i = RESOURCE_WORDS * (y.0 as usize - 1) + (LIVE + offset(p));
    resources[i] = moved(live, up);
}

// The three live counts of a triple, one up or one down.
pub fn tally(resources: &mut [u32], x: Triple, up: bool)
    requires { AllTallyable up resources.old x }
    ensures { resources.new ≡ tally (moved up) x resources.old }
{
    tally_at(resources, Position::Subject, x.subject, up);
    tally_at(resources, Position::Predicate, x.predicate, up);
    tally_at(resources, Position::Object, x.object, up);
}

// Whether none of a triple's three live counts is 0, as must be where its record is live.
#[tactic(auto, unfolding(store::specs::Statement::counting))]
pub fn counting(resources: &[u32], x: Triple) -> bool
    requires { TripleHeld resources.now x }
    ensures { result ≡ counting resources.now x }
{
    0 < live_at(resources, x.subject, Position::Subject)
        && 0 < live_at(resources, x.predicate, Position::Predicate)
        && 0 < live_at(resources, x.object, Position::Object)
}

// The seven words of record t + 1.
pub fn write_record(resources: &[u32], statements: &mut [u32], t: u32, x: Triple)
    requires { TripleHeld resources.now x × (statement_words * suc t ≤ length statements.old) }
    ensures { statements.new ≡ append_record t x resources.now statements.old }
{
    let subject = first_at(resources, x.subject, Position::Subject);
    let predicate = first_at(resources, x.predicate, Position::Predicate);
    let object = first_at(resources, x.object, Position::Object);
    let i = STATEMENT_WORDS * (t as usize);
    statements[i] = x.subject.0;
    statements[i + 1] = x.predicate.0;
    statements[i + 2] = x.object.0;
    statements[i + NEXT] = subject.0;
    statements[i + NEXT + 1] = predicate.0;
    statements[i + NEXT + 2] = object.0;
    statements[i + FLAG] = 0;
}

// Record t + 1 as the first with resource y at a position, which one more holds, live.
pub fn link_first(resources: &mut [u32], p: Position, t: u32, y: ResourceId)
    requires { Linkable resources.old p y.0 × (t ≤ max_statements) }
    ensures { resources.new ≡ link_first p t y.0 resources.old }
{
    let count = count_at(resources, y, p);
    let live = live_at(resources, y, p);
    let i = RESOURCE_WORDS * (y.0 as usize - 1) + offset(p);
    resources[i] = t + 1;
    resources[i + COUNT] = count + 1;
    resources[i + LIVE] = live + 1;
}

// Record t + 1 at the head of its three chains.
pub fn link_record(resources: &mut [u32], t: u32, x: Triple)
    requires { AllLinkable t resources.old x }
    ensures { resources.new ≡ link_record t x resources.old }
{
    link_first(resources, Position::Subject, t, x.subject);
    link_first(resources, Position::Predicate, t, x.predicate);
    link_first(resources, Position::Object, t, x.object);
}

// Whether one record more than t is within capacity.
pub fn has_room(statements: &[u32], t: u32) -> bool
    ensures { result ≡ ltb t (min (length statements.now / statement_words) max_statements) }
{
    t < Counters::MAX_STATEMENTS && (t as usize) < statements.len() / STATEMENT_WORDS
}

// A new record, or 3 where there is no room.
pub fn append(
    c: Counters,
    resources: &mut [u32],
    statements: &mut [u32],
    x: Triple,
) -> Result<Asserted, Refusal>
    requires { Appendable c resources.old x }
    ensures { Appended c x resources.old resources.new
        statements.old statements.new result }
{
    if !has_room(statements, c.statements) {
        return Err(Refusal::Full);
    }
    write_record(resources, statements, c.statements, x);
    link_record(resources, c.statements, x);
    let n = c.statements + 1;
    let d = Counters { statements: n, ..c };
    Ok(Asserted::New(StatementId(n), d))
}

// The triple's own record n: live already, or made live and counted as such.
pub fn revive(
    c: Counters,
    resources: &mut [u32],
    statements: &mut [u32],
    n: StatementId,
    x: Triple,
) -> Asserted
    requires { StatementHeld statements.old n.0 × AllTallyable true resources.old x }
    ensures { Revived c x n.0 resources.old resources.new
        statements.old statements.new (Ok result) }
{
    if flag_at(statements, n) == 1 {
        set_flag(statements, n, 0);
        tally(resources, x, true);
        return Asserted::Revived(n, c);
    }
    Asserted::Already(n, c)
}

// The triple's own record n is retracted if it is live, and no longer counted as such; 0 stands for no record, and is answered as such. 9 where
// a live count of its resources is 0.
pub fn retract_record(
    resources: &mut [u32],
    statements: &mut [u32],
    n: StatementId,
    x: Triple,
) -> Result<Option<StatementId>, Refusal>
    requires { TripleHeld resources.old x × (statement_words * n.0 ≤ length statements.old) }
    ensures { RecordRetracted x n.0 resources.old resources.new
        statements.old statements.new result }
{
    if n.0 == 0 {
        return Ok(None);
    }
    if flag_at(statements, n) == 1 {
        return Ok(None);
    }
    if !counting(resources, x) {
        return Err(Refusal::Damaged);
    }
    set_flag(statements, n, 1);
    tally(resources, x, false);
    Ok(Some(n))
}
