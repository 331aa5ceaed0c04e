// A pattern moved to the front.
ghost use Rattle.std.specs.Prelude.{◌≡◌, ◌+◌, ◌*◌, ◌≤◌, length};
ghost use Rattle.graph.specs.Arranging.{to_front};

use pattern::words::PATTERN_WORDS;

// Pattern i first, those before it moved up by one.
pub fn to_front(words: &mut [u32], i: u32)
    requires { 3 * i + 3 ≤ length words.old }
    ensures { words.new ≡ to_front i words.old }
{
    let end = PATTERN_WORDS * (i as usize + 1);
    words[..end].rotate_right(PATTERN_WORDS);
}
