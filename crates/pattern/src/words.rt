// The words of a query: three a pattern, each a resource's number or a variable (paper 01, "Open a question"; 02, note 8).
ghost use Rattle.std.specs.Prelude.{◌≡◌, ◌<◌, ◌≤◌, length, get_or};
ghost use Rattle.graph.specs.Words.{word_ok, words_ok, patterns_of, pattern, max_patterns};

use graph::{FIRST_VARIABLE, MAX_PATTERNS, QueryPattern, VARIABLES};

// How many words a pattern has: subject, predicate, object.
pub const PATTERN_WORDS: usize = 3;

// Whether a word is a resource's number or a variable.
pub fn word_ok(r: u32, w: u32) -> bool
    ensures { result ≡ word_ok r w }
{
    if w == 0 {
        return false;
    }
    if w <= r {
        return true;
    }
    if w < FIRST_VARIABLE {
        return false;
    }
    w < FIRST_VARIABLE + VARIABLES as u32
}

// Whether the words are a query; where not, open and next refuse 8.
pub fn words_ok(r: u32, words: &[u32]) -> bool
    ensures { result ≡ words_ok r words.now }
{
    let n = words.len();
    if n % PATTERN_WORDS != 0 {
        return false;
    }
    if n > PATTERN_WORDS * MAX_PATTERNS {
        return false;
    }
    words.iter().all(|w| word_ok(r, *w))
}

// How many patterns there are.
pub fn patterns(words: &[u32]) -> u32
    requires { length (patterns_of words.now) ≤ max_patterns }
    ensures { result ≡ length (patterns_of words.now) }
{
    (words.len() / PATTERN_WORDS) as u32
}

// Pattern i, from 0.
pub fn pattern_at(words: &[u32], i: u32) -> QueryPattern
    requires { i < length (patterns_of words.now) }
    ensures { result ≡ get_or (patterns_of words.now) i (pattern 0 0 0) }
{
    let k = PATTERN_WORDS * i as usize;
    QueryPattern {
        subject: words[k],
        predicate: words[k + 1],
        object: words[k + 2],
    }
}
