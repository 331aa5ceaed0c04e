// Pattern scans (paper 01, "Open a listing", "Next of a listing").
//
// Each operation takes the counters and all four tables and answers on any words in them, and on any cursor: what it
// answers is its definition in `store`. Refusals are tested in the paper's order: open 1, 4, 9; next 1, 13, 6, 7, 9.
// Nothing is written.
#![tactic(auto)]

ghost use Rattle.std.specs.Prelude.{◌≡◌, ◌*◌, ◌≤◌, length};
ghost use Rattle.store.specs.Tables.{statement_words};
ghost use Rattle.table.specs.Lent.{held};
ghost use Rattle.store.specs.Scan.{cursor_in, open_of, next_of};
ghost use Rattle.scan.specs.Cursors.{CursorTested};

use chain::pick::{pick_chain, pickable, start_of};
use chain::plan::Plan;
use chain_walk::walk::{Sought, Walked, record_has, walk};
use store::{Counters, Refusal, ScanCursor, Scanned, StatementId, Triple};
use table::fits;
use table::lent::Tables;
use table::triple::within;

// Open a pattern scan: a cursor of the store's generation, before the first record of the bound position of least
// count.
pub fn scan_open(c: Counters, tables: Tables, x: Triple) -> Result<ScanCursor, Refusal>
    ensures { result
        ≡ open_of c (held tables.entry) x }
{
    if !fits(c, tables) {
        return Err(Refusal::Capacity);
    }
    if !within(c.resources, x) {
        return Err(Refusal::UnknownNumber);
    }
    if !pickable(c.statements, tables.resources, x) {
        return Err(Refusal::Damaged);
    }
    let chain = pick_chain(tables.resources, x);
    let first = start_of(c.statements, tables.resources, chain, x);
    Ok(ScanCursor {
        pattern: x,
        chain,
        next: first,
        generation: c.generation,
    })
}

// Whether a next call takes a cursor of the store's generation; where not, it refuses 6. The plan is of its chain and
// pattern.
fn cursor_ok(c: Counters, statements: &[u32], q: ScanCursor, plan: Plan) -> bool
    requires { (statement_words * c.statements ≤ length statements.now)
        × ((plan.chain ≡ q.chain) × (plan.pattern ≡ q.pattern)) }
    ensures { CursorTested c statements.now q result }
{
    let x = q.pattern;
    if !within(c.resources, x) {
        return false;
    }
    if q.next.0 > c.statements {
        return false;
    }
    if !plan.chain_fits() {
        return false;
    }
    let chain = q.chain;
    record_has(statements, chain, plan.resource, q.next)
}

// The cursor with another next record, of the same generation.
fn moved(q: ScanCursor, next: StatementId) -> ScanCursor
    ensures { result ≡ cursor_in q.generation q.pattern q.chain next.0 }
{
    ScanCursor { next, ..q }
}

// Next of a pattern scan: the first live match within the budget, or that the chain or the budget has ended. A cursor
// of another generation is refused before the rest of it is tested: a reclaim numbers statements anew.
pub fn scan_next(
    c: Counters,
    tables: Tables,
    q: ScanCursor,
    budget: u32,
) -> Result<Scanned, Refusal>
    ensures { result
        ≡ next_of c (held tables.entry) q budget }
{
    if !fits(c, tables) {
        return Err(Refusal::Capacity);
    }
    if q.generation != c.generation {
        return Err(Refusal::StaleCursor);
    }
    let chain = q.chain;
    let x = q.pattern;
    let plan = Plan::new(chain, x);
    if !cursor_ok(c, tables.statements, q, plan) {
        return Err(Refusal::BadCursor);
    }
    if budget == 0 {
        return Err(Refusal::NoBudget);
    }
    match walk(
        tables.statements,
        c.resources,
        plan,
        Sought::LiveMatch,
        q.next,
        budget,
    )? {
        Walked::Found(n, visits, next) => Ok(Scanned::Found(n, visits, moved(q, next))),
        Walked::Ended(visits) => Ok(Scanned::Ended(visits, moved(q, StatementId(0)))),
        Walked::Spent(visits, next) => Ok(Scanned::Spent(visits, moved(q, next))),
    }
}
