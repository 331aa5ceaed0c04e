// Words copied as a block.
ghost use Rattle.std.specs.Prelude.{◌≡◌};
ghost use Rattle.store.specs.Prefix.{filled};

// A list's words from the first on, as many as fit; what lies past the list stays.
pub fn fill(list: &[u32], words: &mut [u32])
    ensures { words.new ≡ filled words.old list.now }
{
    let n = list.len().min(words.len());
    words[..n].copy_from_slice(&list[..n]);
}
