// Names by their beginning: the resources whose names begin with given bytes, in byte order of their names.
//
// In a sound index these names are one run. Two halvings with one comparison find where it starts and where it ends: at
// most 32 comparisons of at most 255 bytes, however many names there are. Then the run is copied.
//
// Refusals, in the order tested: 1 a counter over its capacity; 2 a beginning over 255 bytes; 9 a word met on the way
// that no sound store has. The bytes are taken as they are: a zero byte meets no name.
#![tactic(auto)]

ghost use Rattle.store.specs.Prefix.{PrefixAnswer};
ghost use Rattle.table.specs.Lent.{held};

use store::{Counters, Refusal};
use table::fits;
use table::lent::Tables;

pub mod boundary;
mod copy;

// List the names with a prefix: their total, and their numbers from the first lent word on, as many as fit. Words past
// the list keep their values. A refusal writes nothing.
pub fn names_with_prefix(
    c: Counters,
    tables: Tables,
    prefix: &[u8],
    numbers: &mut [u32],
) -> Result<u32, Refusal>
    ensures { PrefixAnswer c (held tables.entry)
        prefix.now numbers.old numbers.new result }
{
    if !fits(c, tables) {
        return Err(Refusal::Capacity);
    }
    if prefix.len() > Counters::MAX_NAME as usize {
        return Err(Refusal::Malformed);
    }
    let found = boundary::run_of(c, tables, prefix);
    let run = found.ok_or(Refusal::Damaged)?;
    let from = run.start as usize;
    let end = run.end as usize;
    copy::fill(&tables.index[from..end], numbers);
    Ok(run.end - run.start)
}
