// The pass over the index: entries in 1..R, and names of neighbours that rise. Names are compared where they stand in
// the text.
ghost use Rattle.std.specs.Prelude.{◌≡◌, ◌+◌, ◌-◌, ◌≤◌, ◌<◌, length};
ghost use Rattle.store.specs.Lists.{all_below};
ghost use Rattle.integrity.specs.Index.{entry_ok, EntriesKnown, name_less, neighbours_rise, index_ok};

use crate::held::Resources;
use store::ResourceId;
use term::class::byte_at;

// Whether the name from a on is less than the name from b on. A zero byte is less than any byte of a name, so a prefix
// comes first; past the end of the text a byte is 0, as if the last name were closed there.
fn name_less(used: &[u8], a: usize, b: usize) -> bool
    ensures { result ≡ name_less used.now a b }
{
    let mut i = a;
    let mut j = b;
    // A loop: two names side by side, from two offsets, and the end of neither is known.
    // The names agree from a up to i and from b up to j.
    loop {
        let x = byte_at(used, i);
        let y = byte_at(used, j);
        if x < y {
            return true;
        }
        if y < x {
            return false;
        }
        if x == 0 {
            return false;
        }
        i += 1;
        j += 1;
    }
}

// Whether entries i and i + 1 of the index rise.
fn neighbours_rise(resources: Resources, index: &[u32], used: &[u8], i: usize) -> bool
    requires entries_known { EntriesKnown index.now resources.count }
    requires i_bound { i + 1 < resources.count }
    ensures { result ≡ neighbours_rise resources.entry.words.now index.now used.now i }
{
    let x = ResourceId(index[i]);
    let y = ResourceId(index[i + 1]);
    let a = table::word::offset_at(resources.words, x) as usize;
    let b = table::word::offset_at(resources.words, y) as usize;
    name_less(used, a, b)
}

// Whether the first r entries are in 1..r.
fn entries_ok(index: &[u32], r: u32) -> bool
    requires { r ≤ length index.now }
    ensures { result ≡ all_below (entry_ok r index.now) r }
{
    let n = r as usize;
    for i in 0..n {
        if !table::in_range(r, index[i]) {
            return false;
        }
    }
    true
}

// Whether the names of the entries in use rise.
fn entries_rise(resources: Resources, index: &[u32], used: &[u8]) -> bool
    requires entries_known { EntriesKnown index.now resources.count }
    ensures { result ≡ all_below (neighbours_rise resources.entry.words.now index.now used.now) (resources.entry.count - 1) }
{
    let n = resources.count as usize;
    for i in 0..n.saturating_sub(1) {
        if !neighbours_rise(resources, index, used, i) {
            return false;
        }
    }
    true
}

// Whether the entries in use are the numbers of the resources in rising order of name.
pub fn index_ok(resources: Resources, index: &[u32], used: &[u8]) -> bool
    requires count_in_bounds { resources.count ≤ length index.now }
    ensures { result ≡ index_ok resources.entry.count resources.entry.words.now index.now used.now }
{
    if !entries_ok(index, resources.count) {
        return false;
    }
    entries_rise(resources, index, used)
}
