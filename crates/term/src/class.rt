// The classes of bytes in a name (paper 01, "Names"), each a match on byte ranges. No class has the byte 0, which
// `byte_at` gives past the end, so that a run of one class ends at the end of the bytes too.
ghost use Rattle.std.specs.Prelude.{ℕ, Bool, ◌+◌, ◌<◌, ◌≤◌, ◌≡◌, ◌⊎◌, drop, get_or};
ghost use Rattle.std.specs.List.{prefix_len};
ghost use Rattle.term.specs.Bytes.{iri_byte, text_byte, pair_byte, first_byte, letter, alnum};
ghost use Rattle.term.specs.Spelling.{label_or_dot};

// The byte at `i`, or 0 past the end.
pub fn byte_at(bytes: &[u8], i: usize) -> u8
    ensures { result ≡ get_or bytes.now i 0 }
{
    if i < bytes.len() {
        return bytes[i];
    }
    0
}

// Of an IRI: 33..126 except < > " { } | ^ \ and the backquote. A match of single bytes beside ranges is compiled to a
// table of jumps, so the class is tested range by range, the most frequent bytes first.
#[tactic(auto, unfolding(crate::specs::Bytes::iri_byte, crate::specs::Bytes::among))]
pub fn is_iri_byte(b: u8) -> bool
    ensures { result ≡ iri_byte b }
{
    match b {
        b'a'..=b'z' => true,
        _ => is_iri_low(b),
    }
}

// No small letter: up to `;`, the digits among them.
#[tactic(auto, unfolding(crate::specs::Bytes::iri_byte, crate::specs::Bytes::among))]
fn is_iri_low(b: u8) -> bool
    requires { (b < 97) ⊎ (122 < b) }
    ensures { result ≡ iri_byte b }
{
    match b {
        0..=b'"' => b == b'!',
        b'#'..=b';' => true,
        _ => is_iri_middle(b),
    }
}

// No small letter, and after `;`: up to `[`, the capital letters among them.
#[tactic(auto, unfolding(crate::specs::Bytes::iri_byte, crate::specs::Bytes::among))]
fn is_iri_middle(b: u8) -> bool
    requires { (59 < b) × ((b < 97) ⊎ (122 < b)) }
    ensures { result ≡ iri_byte b }
{
    match b {
        b'<'..=b'>' => b == b'=',
        b'?'..=b'[' => true,
        _ => is_iri_high(b),
    }
}

// No small letter, and after `[`.
#[tactic(auto, unfolding(crate::specs::Bytes::iri_byte, crate::specs::Bytes::among))]
fn is_iri_high(b: u8) -> bool
    requires { (91 < b) × ((b < 97) ⊎ (122 < b)) }
    ensures { result ≡ iri_byte b }
{
    matches!(b, b']' | b'_' | b'~')
}

// Of a literal's text by itself: 32..126 except " and \.
#[tactic(auto, unfolding(crate::specs::Bytes::text_byte, crate::specs::Bytes::among))]
pub fn is_text_byte(b: u8) -> bool
    ensures { result ≡ text_byte b }
{
    match b {
        b'"' | b'\\' => false,
        32..=126 => true,
        _ => false,
    }
}

// Of a literal's text after \: the letters n and r stand for LF and CR.
#[tactic(auto, unfolding(crate::specs::Bytes::pair_byte, crate::specs::Bytes::among))]
pub fn is_pair_byte(b: u8) -> bool
    ensures { result ≡ pair_byte b }
{
    matches!(b, b'"' | b'\\' | b'n' | b'r')
}

// The first of a blank node's label: a letter, a digit or _.
#[tactic(auto, unfolding(crate::specs::Bytes::first_byte, crate::specs::Bytes::alnum, crate::specs::Bytes::letter))]
pub fn is_label_first(b: u8) -> bool
    ensures { result ≡ first_byte b }
{
    matches!(b, b'a'..=b'z' | b'A'..=b'Z' | b'0'..=b'9' | b'_')
}

// A later one: a letter, a digit, _, - or a dot.
#[tactic(auto, unfolding(crate::specs::Spelling::label_or_dot, crate::specs::Bytes::label_byte, crate::specs::Bytes::first_byte, crate::specs::Bytes::alnum, crate::specs::Bytes::letter))]
pub fn is_label_byte(b: u8) -> bool
    ensures { result ≡ label_or_dot b }
{
    matches!(b, b'a'..=b'z' | b'A'..=b'Z' | b'0'..=b'9' | b'_' | b'-' | b'.')
}

// Of a language tag's first group.
#[tactic(auto, unfolding(crate::specs::Bytes::letter))]
pub fn is_letter(b: u8) -> bool
    ensures { result ≡ letter b }
{
    matches!(b, b'a'..=b'z' | b'A'..=b'Z')
}

// Of a language tag's later groups: a letter or a digit.
#[tactic(auto, unfolding(crate::specs::Bytes::alnum, crate::specs::Bytes::letter))]
pub fn is_alnum(b: u8) -> bool
    ensures { result ≡ alnum b }
{
    matches!(b, b'a'..=b'z' | b'A'..=b'Z' | b'0'..=b'9')
}

// Where the bytes of one class end that stand from `at` on: before the first byte that fails the test, or at the end.
pub fn run_end<F: Fn(u8) -> bool>(bytes: &[u8], at: usize, test: F) -> usize
    requires { F.IsAlwaysCallable test }
    ensures begun { at ≤ result }
    ensures end { (p : ℕ → Bool) → ((b : ℕ) (r : Bool) → F.post test b r → r ≡ p b) → result ≡ at + prefix_len p (drop at bytes.now) }
{
    // The bytes from `at` up to `i` pass the test. A loop: a literal looks for a run after each pair, mostly an empty
    // one, and `position` costs more to set up.
    for i in at..bytes.len() {
        let passes = test(bytes[i]);
        if !passes {
            return i;
        }
    }
    at.max(bytes.len())
}
