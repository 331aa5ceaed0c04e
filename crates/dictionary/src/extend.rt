// One name more: its record, its bytes, its place in the index.
ghost use Rattle.std.specs.Prelude.{◌≡◌, [], ◌∷◌, ◌++◌, suc, ◌+◌, ◌-◌, ◌*◌, ◌≤◌, ◌<◌, length};
ghost use Rattle.std.proofs.lemmas.List.Edits.{sets};
ghost use Rattle.term.specs.Grammar.{name_limit};
ghost use Rattle.store.specs.Tables.{resource_words};
ghost use Rattle.store.specs.Shared.{max_resources, max_text};
ghost use Rattle.store.specs.Dictionary.{one_name_more, fresh_record, bring, insert_at};
ghost use Rattle.dictionary.specs.Extend.{HasRoom, Extended};

use store::{Counters, ResourceId};

// The counters with one name more.
pub fn one_name_more(c: Counters, name: &[u8]) -> Counters
    requires { (length name.now ≤ name_limit) × (c.resources ≤ max_resources) × (c.text ≤ max_text) }
    ensures { result ≡ one_name_more c name.now }
{
    let mut d = c;
    d.resources = c.resources + 1;
    d.text = c.text + name.len() as u32 + 1;
    d
}

// The eleven words of record r + 1: the name's offset, its kind, and 0 elsewhere, for no statement holds it yet.
pub fn write_record(resources: &mut [u32], r: u32, offset: u32, kind: u32)
    requires { resource_words * suc r ≤ length resources.old }
    ensures { resources.new
        ≡ sets resources.old (resource_words * r) (fresh_record offset kind) }
{
    let start = table::word::RESOURCE_WORDS * r as usize;
    table::word::zero(resources, start, table::word::RESOURCE_WORDS);
    resources[start + table::word::OFFSET] = offset;
    resources[start + table::word::KIND] = kind;
}

// The name's bytes from b on, closed by a zero byte.
pub fn write_name(text: &mut [u8], b: u32, name: &[u8])
    requires { b + length name.now < length text.old }
    ensures { text.new ≡ sets text.old b (name.now ++ 0 ∷ []) }
{
    let start = b as usize;
    let end = start + name.len();
    text[start..end].copy_from_slice(name);
    text[end] = 0;
}

// A word put in front, the others moved up by one, the last dropped.
pub fn push_front(words: &mut [u32], v: u32)
    requires { 0 < length words.old }
    ensures { words.new ≡ bring v (length words.old - 1) words.old }
{
    let last = words.len() - 1;
    words.copy_within(0..last, 1);
    words[0] = v;
}

// A number put into the first r entries at a position, those from there on moved up by one.
pub fn insert(index: &mut [u32], r: u32, at: u32, y: ResourceId)
    requires { (at ≤ r) × (r < length index.old) }
    ensures { index.new ≡ insert_at at (r - at) y.0 index.old }
{
    let from = at as usize;
    let end = r as usize + 1;
    push_front(&mut index[from..end], y.0);
}

// All three writes of a new name.
pub fn append(
    c: Counters,
    resources: &mut [u32],
    index: &mut [u32],
    text: &mut [u8],
    name: &[u8],
    at: u32,
    kind: u32,
)
    requires { HasRoom c resources.old index.old text.old name.now at }
    ensures { Extended c resources.old resources.new
        index.old index.new text.old text.new name.now at kind }
{
    write_record(resources, c.resources, c.text, kind);
    write_name(text, c.text, name);
    insert(index, c.resources, at, ResourceId(c.resources + 1));
}
