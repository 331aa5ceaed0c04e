// The pass over the records, in place: record n is read before record `live` + 1, which is not after it, is written.
ghost use Rattle.std.specs.Prelude.{◌≡◌, ◌-◌};
ghost use Rattle.store.specs.Reclaim.{swept, sweep_one, sweep};
ghost use Rattle.compaction.specs.Steps.{Sweepable, AllSweepable};

use statement_record::record::{link_record, write_record};
use store::StatementId;
use table::word::{flag_at, triple_at};

// Record n, with `live` live ones before it: passed over if retracted, else moved down to record `live` + 1 and linked
// there. How many live ones there are then.
pub fn sweep_one(resources: &mut [u32], statements: &mut [u32], n: StatementId, live: u32) -> u32
    requires { Sweepable n.0 (swept live resources.old statements.old) }
    ensures { swept result resources.new statements.new
        ≡ sweep_one (n.0 - 1) (swept live resources.old statements.old) }
{
    if flag_at(statements, n) == 1 {
        return live;
    }
    let x = triple_at(statements, n);
    write_record(resources, statements, live, x);
    link_record(resources, live, x);
    live + 1
}

// All t records, on cleared chains and counts. How many are live.
pub fn sweep(resources: &mut [u32], statements: &mut [u32], t: u32) -> u32
    requires { AllSweepable t (swept 0 resources.old statements.old) }
    ensures { swept result resources.new statements.new
        ≡ sweep t (swept 0 resources.old statements.old) }
{
    let mut live: u32 = 0;
    // The first `done` records are swept, and `live` of them were live.
    for done in 0..t {
        live = sweep_one(resources, statements, StatementId(done + 1), live);
    }
    live
}
