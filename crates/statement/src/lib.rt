// Statements (paper 01, "Assert", "Retract"; 02, note 5).
//
// Each operation takes the counters and all four tables and answers on any words in them: what it answers and what it
// writes is its definition in `store`. `statement_target` finds the record, `statement_record` writes. Refusals are
// tested in the paper's order, and beside a refusal nothing is written. Assert and retract come by value and on
// counters that the caller keeps and lends. They take the tables as four slices: two are written and two only read, and
// a struct of four that may be written would ask more of callers.
#![tactic(auto)]

ghost use Rattle.std.specs.Prelude.{◌≡◌};
ghost use Rattle.store.specs.Tables.{after, tables};
ghost use Rattle.store.specs.Statement.{assert_of, retract_of, counters_after};
ghost use Rattle.statement.specs.Updating.{AssertedUpdating, RetractedUpdating};

use statement_record::record::{append, retract_record, revive};
use statement_target::target::{assert_target, retract_target};
use store::{Asserted, Counters, Refusal, StatementId, Triple};
use table::lent::Tables;

// Assert: new, already or revived, with the statement's number and the counters from now on.
pub fn assert(
    c: Counters,
    resources: &mut [u32],
    statements: &mut [u32],
    index: &[u32],
    text: &[u8],
    x: Triple,
) -> Result<Asserted, Refusal>
    ensures { after (tables resources.new statements.new index.now text.now) result
        ≡ assert_of c (tables resources.old statements.old index.now text.now) x }
{
    let tables = Tables {
        resources,
        statements,
        index,
        text,
    };
    match assert_target(c, tables, x)? {
        None => append(c, resources, statements, x),
        Some(n) => Ok(revive(c, resources, statements, n, x)),
    }
}

// Retract: the number of the statement that was live until now, if there was one.
pub fn retract(
    c: Counters,
    resources: &mut [u32],
    statements: &mut [u32],
    index: &[u32],
    text: &[u8],
    x: Triple,
) -> Result<Option<StatementId>, Refusal>
    ensures { after (tables resources.new statements.new index.now text.now) result
        ≡ retract_of c (tables resources.old statements.old index.now text.now) x }
{
    let tables = Tables {
        resources,
        statements,
        index,
        text,
    };
    match retract_target(c, tables, x)? {
        None => Ok(None),
        Some(n) => retract_record(resources, statements, n, x),
    }
}

// The counters after assert: as answered, and unchanged beside a refusal.
fn counters_after(c: Counters, r: Result<Asserted, Refusal>) -> Counters
    ensures { result ≡ counters_after c r }
{
    match r {
        Ok(Asserted::New(_, d) | Asserted::Already(_, d) | Asserted::Revived(_, d)) => d,
        Err(_) => c,
    }
}

// Assert on counters that the caller keeps and lends for updating.
pub fn assert_updating(
    c: &mut Counters,
    resources: &mut [u32],
    statements: &mut [u32],
    index: &[u32],
    text: &[u8],
    x: Triple,
) -> Result<Asserted, Refusal>
    ensures { AssertedUpdating c.old c.new resources.old resources.new
        statements.old statements.new index.now text.now x result }
{
    let reply = assert(*c, resources, statements, index, text, x);
    *c = counters_after(*c, reply);
    reply
}

// Retract on counters that the caller keeps and lends. It changes none of them.
pub fn retract_updating(
    c: &mut Counters,
    resources: &mut [u32],
    statements: &mut [u32],
    index: &[u32],
    text: &[u8],
    x: Triple,
) -> Result<Option<StatementId>, Refusal>
    ensures { RetractedUpdating c.old c.new resources.old resources.new
        statements.old statements.new index.now text.now x result }
{
    retract(*c, resources, statements, index, text, x)
}
