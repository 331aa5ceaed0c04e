// What a visit of a record tests, and the walks along a chain (paper 01, "9 in a chain step"; 02, note 3).
//
// Every visit makes the same tests, `test_record`. A scan walks within a budget and counts its visits, `walk`; assert
// and retract seek one record, `seek`; both go by a plan that their caller has made. The query visits record by record.
// Each function asks that the records it reads lie in the statement table, and nothing of what they hold: a word out of
// range is an answer.
ghost use Rattle.std.specs.Prelude.{◌≡◌, Bool, ◌-◌, ◌*◌, ◌≤◌, length, IsOkUnless};
ghost use Rattle.store.specs.declared.Triple.{Triple};
ghost use Rattle.store.specs.declared.Refusal.TheVariants.{Damaged};
ghost use Rattle.store.specs.Shared.{agrees};
ghost use Rattle.store.specs.Tables.{statement_words};
ghost use Rattle.store.specs.Walk.{link_of, visitable, walk};
ghost use Rattle.table.specs.Held.{StatementHeld};
ghost use Rattle.chain_walk.specs.declared.walk.Sought.TheVariants.{Same};
ghost use Rattle.chain.specs.Plans.{agrees_by};
ghost use Rattle.chain_walk.specs.Walks.{record_has, follow_of, tested_of, hits_in, hits, visited_by, visit_of, step_of, sought_as, located_in};

use chain::plan::{Plan, resource_of};
use store::{Chain, Refusal, ResourceId, StatementId, Triple};
use table::known;
use table::triple::{agrees, same};
use table::word::{flag_at, next_at, term_at, triple_at};

// What a walk seeks: the record with the pattern's three numbers, retracted or not, or the first live match of a
// pattern. A value that `hits` alone matches on: a closure or a type for each would say the same in more words, and by
// the value seeks, scans and queries share the laws of one walk.
#[derive(Clone, Copy)]
pub enum Sought {
    Same,
    LiveMatch,
}

// What the records of a chain are put to: a pattern, or the plan of a walk by it.
trait Asked {
    ghost asks: { Self → Triple };

    ghost admits: { Self → Triple → Bool };

    fn pattern(&self) -> Triple
        ensures { result ≡ asks self.now };

    // Whether three resources agree with what is asked.
    fn agrees(&self, t: Triple) -> bool
        ensures { result ≡ admits self.now t };
}

impl Asked for Triple {
    ghost asks = { λ x. x };

    ghost admits = { agrees };

    fn pattern(&self) -> Triple {
        *self
    }

    fn agrees(&self, t: Triple) -> bool {
        agrees(*self, t)
    }
}

impl Asked for Plan {
    ghost asks = { λ p. p.pattern };

    ghost admits = { agrees_by };

    fn pattern(&self) -> Triple {
        self.pattern
    }

    fn agrees(&self, t: Triple) -> bool {
        self.agrees_by(t)
    }
}

// A record that passed the tests: the next on the chain, its three resources and its flag.
#[derive(Clone, Copy)]
struct Tested {
    next: StatementId,
    triple: Triple,
    flag: u32,
}

// What a visit finds: what is sought, or another record; with the next record on the chain.
#[derive(Clone, Copy)]
pub enum Visited {
    Hit(StatementId),
    Miss(StatementId),
}

// What a walk comes to: the record found, the visits made, the next record; no record left; or no budget left.
#[derive(Clone, Copy)]
pub enum Walked {
    Found(StatementId, u32, StatementId),
    Ended(u32),
    Spent(u32, StatementId),
}

// The record after n on a chain.
pub fn link_of(statements: &[u32], chain: Chain, n: StatementId) -> StatementId
    requires { StatementHeld statements.now n.0 }
    ensures { result.0 ≡ link_of statements.now chain (n.0 - 1) }
{
    match chain {
        Chain::All => StatementId(n.0 - 1),
        Chain::By(p) => next_at(statements, n, p),
    }
}

// The record after n on a chain. A record without resource y at the chain's position or with a next that does not fall
// is damaged.
fn follow(
    statements: &[u32],
    chain: Chain,
    y: ResourceId,
    n: StatementId,
) -> Result<StatementId, Refusal>
    requires { StatementHeld statements.now n.0 }
    ensures { result ≡ follow_of statements.now chain y.0 (n.0 - 1) }
{
    match chain {
        Chain::All => Ok(StatementId(n.0 - 1)),
        Chain::By(p) => {
            let z = term_at(statements, n, p);
            if z != y {
                return Err(Refusal::Damaged);
            }
            let next = next_at(statements, n, p);
            if next.0 >= n.0 {
                return Err(Refusal::Damaged);
            }
            Ok(next)
        }
    }
}

// The tests of record n on a chain of resource y; where one fails, an operation refuses 9. The three resources are read
// here for whoever compares them.
fn test_record(
    statements: &[u32],
    r: u32,
    chain: Chain,
    y: ResourceId,
    n: StatementId,
) -> Result<Tested, Refusal>
    requires { StatementHeld statements.now n.0 }
    ensures { result ≡ tested_of r statements.now chain y.0 (n.0 - 1) }
{
    let t = triple_at(statements, n);
    if !known(r, t) {
        return Err(Refusal::Damaged);
    }
    let next = follow(statements, chain, y, n)?;
    let flag = flag_at(statements, n);
    if flag > 1 {
        return Err(Refusal::Damaged);
    }
    Ok(Tested {
        next: next,
        triple: t,
        flag: flag,
    })
}

// Whether a record with three resources t and a flag is what is sought.
#[tactic(auto, unfolding(crate::specs::Walks::hits_in))]
fn hits<A: Asked>(sought: Sought, asked: &A, t: Triple, flag: u32) -> bool
    ensures { result ≡ hits_in sought (A.asks asked.now) (A.admits asked.now) t flag }
{
    match sought {
        Sought::Same => same(asked.pattern(), t),
        Sought::LiveMatch => flag != 1 && asked.agrees(t),
    }
}

// One visit of record n on a chain of resource y.
fn visit_asked<A: Asked>(
    statements: &[u32],
    r: u32,
    chain: Chain,
    y: ResourceId,
    asked: &A,
    sought: Sought,
    n: StatementId,
) -> Result<Visited, Refusal>
    requires { StatementHeld statements.now n.0 }
    ensures { result
        ≡ visited_by (hits_in sought (A.asks asked.now) (A.admits asked.now))
        (tested_of r statements.now chain y.0 (n.0 - 1)) }
{
    let record = test_record(statements, r, chain, y, n)?;
    if hits(sought, asked, record.triple, record.flag) {
        return Ok(Visited::Hit(record.next));
    }
    Ok(Visited::Miss(record.next))
}

// One visit of record n by a pattern, for a caller whose pattern changes from visit to visit.
pub fn visit(
    statements: &[u32],
    r: u32,
    chain: Chain,
    x: Triple,
    sought: Sought,
    n: StatementId,
) -> Result<Visited, Refusal>
    requires { StatementHeld statements.now n.0 }
    ensures { result ≡ visit_of sought r statements.now chain x (n.0 - 1) }
{
    visit_asked(statements, r, chain, resource_of(chain, x), &x, sought, n)
}

// The same by a plan.
fn visit_by(
    statements: &[u32],
    r: u32,
    plan: Plan,
    sought: Sought,
    n: StatementId,
) -> Result<Visited, Refusal>
    requires { StatementHeld statements.now n.0 }
    ensures { result ≡ visit_of sought r statements.now plan.chain plan.pattern (n.0 - 1) }
{
    visit_asked(statements, r, plan.chain, plan.resource, &plan, sought, n)
}

// The walk along a chain from a record on, left from inside at the first record that is what is sought, with at most
// `budget` visits.
pub fn walk(
    statements: &[u32],
    r: u32,
    plan: Plan,
    sought: Sought,
    from: StatementId,
    budget: u32,
) -> Result<Walked, Refusal>
    requires { statement_words * from.0 ≤ length statements.now }
    ensures walks { step_of result
        ≡ walk (link_of statements.now plan.chain)
        (visitable r statements.now plan.chain plan.pattern)
        (hits sought statements.now plan.pattern) budget from.0 }
    ensures err { IsOkUnless result Damaged }
{
    let mut n = from;
    let mut visits: u32 = 0;
    // `visits` records from `from` on were visited, none of them damaged or what is sought; n is the next on the chain. The
    // loop is left by `break` with the record found: the form that docs/DECISIONS.md names for the walk ("Forms").
    let found = loop {
        if n.0 == 0 {
            return Ok(Walked::Ended(visits));
        }
        if visits == budget {
            return Ok(Walked::Spent(visits, n));
        }
        match visit_by(statements, r, plan, sought, n)? {
            Visited::Hit(m) => {
                let here = n;
                n = m;
                break here;
            }
            Visited::Miss(m) => {
                n = m;
                visits += 1;
            }
        }
    };
    Ok(Walked::Found(found, visits + 1, n))
}

// The first record from a record on with the pattern's three numbers, retracted or not. Nexts fall, so that every
// record of the chain is reached.
pub fn seek(
    statements: &[u32],
    r: u32,
    plan: Plan,
    from: StatementId,
) -> Result<Option<StatementId>, Refusal>
    requires { statement_words * from.0 ≤ length statements.now }
    ensures { result
        ≡ sought_as (located_in (walk (link_of statements.now plan.chain)
        (visitable r statements.now plan.chain plan.pattern)
        (hits Same statements.now plan.pattern) from.0 from.0)) }
{
    let mut n = from;
    // No record from `from` on and before n is damaged or has the three numbers; n is the next on the chain. A while: the
    // next record comes from the table, and counting visits, as `walk` does, would cost a count at each.
    while n.0 != 0 {
        match visit_by(statements, r, plan, Sought::Same, n)? {
            Visited::Hit(_) => return Ok(Some(n)),
            Visited::Miss(m) => n = m,
        }
    }
    Ok(None)
}

// Whether a cursor's next record, if it has one, has resource y at the chain's position.
pub fn record_has(statements: &[u32], chain: Chain, y: ResourceId, n: StatementId) -> bool
    requires { statement_words * n.0 ≤ length statements.now }
    ensures { result ≡ record_has statements.now chain y.0 n.0 }
{
    if n.0 == 0 {
        return true;
    }
    match chain {
        Chain::All => true,
        Chain::By(p) => {
            let z = term_at(statements, n, p);
            z == y
        }
    }
}
