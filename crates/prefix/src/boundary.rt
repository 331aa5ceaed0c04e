// Where the run of names with a prefix starts in the index, and where it ends. Each function asks that the counters are
// within capacity; the operation sees to it, once, so that no type has the fact. No offset and no index word is trusted: a word out of range ends the search.
ghost use Rattle.std.specs.Prelude.{◌≡◌, ◌≤◌, ◌<◌, length};
ghost use Rattle.dictionary.specs.Search.{Readable};
ghost use Rattle.prefix.specs.Boundary.{side_of, probe_of, boundary_from, run_of};

use std::cmp::Ordering;
use store::{Counters, ResourceId};
use table::lent::Tables;

// Where a boundary lies: how many entries of the index are less, and a position from which on all names are more than
// those with the prefix: the lowest that the search has met, or the end of the part searched.
#[derive(Clone, Copy)]
pub struct Edge {
    pub below: u32,
    pub top: u32,
}

// The run of the index that has the names with a prefix: where it starts, and where it ends.
#[derive(Clone, Copy)]
pub struct Run {
    pub start: u32,
    pub end: u32,
}

// The name in the text from `from` on, closed by a zero byte before `end`, against a boundary: on which side it lies. A
// name that begins with the prefix is less than the boundary after such names, and equal to the one before them. The zero
// byte that closes a name is less than any byte of the prefix, a zero byte too: so nothing is compared with the next name.
// `after` is the definition's Bool: the two boundaries differ in the one answer at a name that begins so.
// None if it is unreadable: it needs a byte at `end` or past it.
pub fn side_of(text: &[u8], end: u32, from: u32, prefix: &[u8], after: bool) -> Option<Ordering>
    requires { end ≤ length text.now }
    ensures { result ≡ side_of after text.now end from prefix.now }
{
    let stop = end as usize;
    let start = from as usize;
    for (i, y) in prefix.iter().enumerate() {
        if start + i >= stop {
            return None;
        }
        let x = text[start + i];
        if x == 0 {
            return Some(Ordering::Less);
        }
        if x < *y {
            return Some(Ordering::Less);
        }
        if x > *y {
            return Some(Ordering::Greater);
        }
    }
    if after {
        Some(Ordering::Less)
    } else {
        Some(Ordering::Equal)
    }
}

// The name of the index's entry at a position against a boundary. None if it is unreadable, or the index word is not in
// 1..R.
pub fn probe(c: Counters, tables: Tables, prefix: &[u8], after: bool, at: u32) -> Option<Ordering>
    requires { Readable c tables.resources.now tables.index.now tables.text.now × (at < c.resources) }
    ensures { result ≡ probe_of c tables.entry.resources.now tables.entry.index.now tables.entry.text.now
        prefix.now after at }
{
    // As in the dictionary's probe, but for the comparison: a function for these four lines is no shorter with its contract.
    let y = ResourceId(tables.index[at as usize]);
    if !table::in_range(c.resources, y.0) {
        return None;
    }
    let from = table::word::offset_at(tables.resources, y);
    side_of(tables.text, c.text, from, prefix, after)
}

// The boundary before the names with a prefix, or after them, among the entries from `first` to `end`. None where it met
// a word out of range.
pub fn boundary(
    c: Counters,
    tables: Tables,
    prefix: &[u8],
    after: bool,
    first: u32,
    end: u32,
) -> Option<Edge>
    requires { Readable c tables.resources.now tables.index.now tables.text.now × (first ≤ end) × (end ≤ c.resources) }
    ensures { result ≡ boundary_from c tables.entry.resources.now tables.entry.index.now tables.entry.text.now
        prefix.now after first end }
{
    let mut lo = first;
    let mut hi = end;
    let mut top = end;
    // A while, and not the library's `partition_point`: `boundary_of` says which entries are read, where the index does not
    // rise too, and that a damaged one ends the search. The search for a name is another one: it ends at an equal name.
    // Where the index rises, the names before `lo` lie below the boundary, those from `hi` on above it, and those from
    // `top` on are more than the names with the prefix.
    while lo < hi {
        let mid = lo + (hi - lo) / 2;
        match probe(c, tables, prefix, after, mid) {
            Some(Ordering::Less) => lo = mid + 1,
            Some(Ordering::Equal) => hi = mid,
            Some(Ordering::Greater) => {
                hi = mid;
                top = mid;
            }
            None => return None,
        }
    }
    Some(Edge { below: lo, top })
}

// The run between both boundaries. The second search looks no further than the first has left open.
pub fn run_of(c: Counters, tables: Tables, prefix: &[u8]) -> Option<Run>
    requires { Readable c tables.resources.now tables.index.now tables.text.now }
    ensures { result ≡ run_of c tables.entry.resources.now tables.entry.index.now tables.entry.text.now
        prefix.now }
{
    let before = boundary(c, tables, prefix, false, 0, c.resources)?;
    let after = boundary(c, tables, prefix, true, before.below, before.top)?;
    Some(Run {
        start: before.below,
        end: after.below,
    })
}
