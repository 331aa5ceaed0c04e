// Words set to 0: the links and counts of every resource before the sweep, the records given up after it.
ghost use Rattle.std.specs.Prelude.{◌≡◌, ◌-◌, ◌*◌, ◌≤◌, length};
ghost use Rattle.store.specs.Tables.{resource_words, statement_words};
ghost use Rattle.store.specs.Reclaim.{unlinked, blanked};
ghost use Rattle.table.specs.Held.{ResourceHeld};
ghost use Rattle.compaction.specs.Steps.{unlinked_one};

use store::ResourceId;

// Firsts, counts and live counts of resource y; its offset and kind stand between them.
pub fn unlink_one(resources: &mut [u32], y: ResourceId)
    requires { ResourceHeld resources.old y.0 }
    ensures { resources.new ≡ unlinked_one (y.0 - 1) resources.old }
{
    let start = table::word::RESOURCE_WORDS * (y.0 as usize - 1);
    table::word::zero(resources, start, table::word::OFFSET);
    table::word::zero(
        resources,
        start + table::word::LIVE,
        table::word::RESOURCE_WORDS - table::word::LIVE,
    );
}

// The same of all r resources.
pub fn unlink_all(resources: &mut [u32], r: u32)
    requires { resource_words * r ≤ length resources.old }
    ensures { resources.new ≡ unlinked r resources.old }
{
    // Those of the first `done` resources are 0.
    for done in 0..r {
        unlink_one(resources, ResourceId(done + 1));
    }
}

// The records from `live` + 1 to t.
pub fn blank(statements: &mut [u32], live: u32, t: u32)
    requires { (live ≤ t) × (statement_words * t ≤ length statements.old) }
    ensures { statements.new ≡ blanked live t statements.old }
{
    let start = table::word::STATEMENT_WORDS * live as usize;
    table::word::zero(
        statements,
        start,
        table::word::STATEMENT_WORDS * (t - live) as usize,
    );
}
