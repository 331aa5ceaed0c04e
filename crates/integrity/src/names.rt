// The pass over the used text: each name from where the one before was closed to the next zero byte, with its
// resource's record.
ghost use Rattle.std.specs.Prelude.{◌≡◌, ◌+◌, ◌≤◌, length};
ghost use Rattle.table.specs.Held.{ResourceHeld};
ghost use Rattle.integrity.specs.Names.{name_from, name_ok, names_ok};

use crate::held::Resources;
use store::ResourceId;

// Whether the name from `from` to `end` is closed, well formed and without the string ending, and resource y has its
// offset and kind.
fn name_ok(resources: &[u32], used: &[u8], y: ResourceId, from: usize, end: usize) -> bool
    requires resource_held { ResourceHeld resources.now y.0 }
    requires end_value { (end ≡ from + length (name_from used.now from)) × (end ≤ length used.now) }
    ensures { result ≡ name_ok resources.now used.now y.0 from }
{
    if end == used.len() {
        return false;
    }
    if table::word::offset_at(resources, y) as usize != from {
        return false;
    }
    // The kind as its record holds it: a number, 0 where the name is malformed.
    let kind = term::name_kind(&used[from..end]);
    if kind == 0 {
        return false;
    }
    if term::writes_string(&used[from..end]) {
        return false;
    }
    table::word::kind_at(resources, y) == kind
}

// Whether the used text is exactly the names of the resources, with right offsets and kinds.
pub fn names_ok(resources: Resources, used: &[u8]) -> bool
    ensures { result ≡ names_ok resources.entry.words.now used.now resources.entry.count 1 0 }
{
    let mut from: usize = 0;
    // The text up to `from` is the names of the first `done` resources, with right offsets and kinds.
    for done in 0..resources.count {
        let end = find_byte::find(used, from, used.len(), 0);
        if !name_ok(resources.words, used, ResourceId(done + 1), from, end) {
            return false;
        }
        from = end + 1;
    }
    from == used.len()
}
