// The search of the index. Each function asks that the counters are within capacity; the operations see to it. No
// offset and no index word is trusted: a word out of range ends the search. A type with that fact would be made by the
// operation alone, once.
ghost use Rattle.std.specs.Prelude.{◌≡◌, ◌≤◌, ◌<◌, length};
ghost use Rattle.dictionary.specs.Search.{Readable, compare_of, probe_of, searched};

use std::cmp::Ordering;
use store::{Counters, Lookup, Refusal, ResourceId};
use table::lent::Tables;

// The bytes of the text from `from` on, closed by a zero byte before `end`, against a name. None if it is
// unreadable: it needs a byte at `end` or past it.
pub fn compare(text: &[u8], end: u32, from: u32, name: &[u8]) -> Option<Ordering>
    requires { end ≤ length text.now }
    ensures { result ≡ compare_of text.now end from name.now }
{
    let stop = end as usize;
    let start = from as usize;
    if start >= stop {
        return None;
    }
    let n = name.len().min(stop - start);
    for i in 0..n {
        let x = text[start + i];
        let y = name[i];
        if x < y {
            return Some(Ordering::Less);
        }
        if x > y {
            return Some(Ordering::Greater);
        }
    }
    if start + n >= stop {
        return None;
    }
    if text[start + n] == 0 {
        Some(Ordering::Equal)
    } else {
        Some(Ordering::Greater)
    }
}

// The name of the index's entry at a position against a name. None if it is unreadable, or the index word is no number.
pub fn probe(c: Counters, tables: Tables, name: &[u8], at: u32) -> Option<Ordering>
    requires { Readable c tables.resources.now tables.index.now tables.text.now × (at < c.resources) }
    ensures { result ≡ probe_of c tables.entry.resources.now tables.entry.index.now tables.entry.text.now
        name.now at }
{
    let y = ResourceId(tables.index[at as usize]);
    if !table::in_range(c.resources, y.0) {
        return None;
    }
    let from = table::word::offset_at(tables.resources, y);
    compare(tables.text, c.text, from, name)
}

// Where a name stands in the index, or belongs.
pub fn search(c: Counters, tables: Tables, name: &[u8]) -> Result<Lookup, Refusal>
    requires { Readable c tables.resources.now tables.index.now tables.text.now }
    ensures { result ≡ searched c tables.entry.resources.now tables.entry.index.now tables.entry.text.now
        name.now }
{
    let mut lo: u32 = 0;
    let mut hi = c.resources;
    // A while, and not the library's binary search: `search_of` says which entries are read, where the index does not rise
    // too, and that a damaged one ends the search.
    // Where the index rises, the names before `lo` are less than this one, and those from `hi` on are more.
    while lo < hi {
        let mid = lo + (hi - lo) / 2;
        match probe(c, tables, name, mid) {
            Some(Ordering::Less) => lo = mid + 1,
            Some(Ordering::Greater) => hi = mid,
            Some(Ordering::Equal) => {
                let number = ResourceId(tables.index[mid as usize]);
                return Ok(Lookup::Number(number, mid));
            }
            None => return Err(Refusal::Damaged),
        }
    }
    Ok(Lookup::Absent(lo))
}
