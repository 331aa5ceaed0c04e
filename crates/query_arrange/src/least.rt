// Which pattern is the most selective.
ghost use Rattle.std.specs.Prelude.{true, ◌||◌, ◌≡◌, min, leb};
ghost use Rattle.store.specs.Tables.{count_at};
ghost use Rattle.graph.specs.Words.{is_variable, patterns_of};
ghost use Rattle.graph.specs.Arranging.{countable, all_countable, count_or, key_of, least_at};
ghost use Rattle.query_arrange.specs.Held.{WordHeld, PatternHeld, QueryHeld};

use graph::{FIRST_VARIABLE, QueryPattern};
use pattern::words::{pattern_at, patterns};
use store::{Position, ResourceId};
use table::word::count_at;

// Whether a word is a variable, or its count at its place is not above t.
fn word_countable(t: u32, resources: &[u32], p: Position, w: u32) -> bool
    requires { WordHeld resources.now w }
    ensures { result ≡ (is_variable w || leb (count_at resources.now p w) t) }
{
    w >= FIRST_VARIABLE || count_at(resources, ResourceId(w), p) <= t
}

// Whether no count of a pattern is above t.
#[tactic(auto, unfolding(graph::specs::Arranging::countable))]
fn pattern_countable(t: u32, resources: &[u32], x: QueryPattern) -> bool
    requires { PatternHeld resources.now x }
    ensures { result ≡ countable t resources.now x }
{
    word_countable(t, resources, Position::Subject, x.subject)
        && word_countable(t, resources, Position::Predicate, x.predicate)
        && word_countable(t, resources, Position::Object, x.object)
}

// Whether no count at a place with a resource number is above t; where not, the opening refuses 9.
pub fn all_countable(t: u32, resources: &[u32], words: &[u32]) -> bool
    requires { QueryHeld resources.now words.now }
    ensures { result ≡ all_countable t resources.now (patterns_of words.now) }
{
    (0..patterns(words)).all(|i| pattern_countable(t, resources, pattern_at(words, i)))
}

// A word's count at its place; t for a variable.
#[tactic(auto, unfolding(graph::specs::Arranging::count_or))]
fn count_or(t: u32, resources: &[u32], p: Position, w: u32) -> u32
    requires { WordHeld resources.now w }
    ensures { result ≡ count_or t resources.now p w }
{
    if w >= FIRST_VARIABLE {
        return t;
    }
    count_at(resources, ResourceId(w), p)
}

// The least count of a pattern; t where it has none.
#[tactic(auto, unfolding(graph::specs::Arranging::key_of))]
fn key_of(t: u32, resources: &[u32], x: QueryPattern) -> u32
    requires { PatternHeld resources.now x }
    ensures { result ≡ key_of t resources.now x }
{
    let s = count_or(t, resources, Position::Subject, x.subject);
    let p = count_or(t, resources, Position::Predicate, x.predicate);
    let o = count_or(t, resources, Position::Object, x.object);
    s.min(p.min(o))
}

// The first pattern of least key, from 0. No count is above t, so that no key is.
pub fn least_at(t: u32, resources: &[u32], words: &[u32]) -> u32
    requires { QueryHeld resources.now words.now × (all_countable t resources.now (patterns_of words.now) ≡ true) }
    ensures { result ≡ least_at t resources.now (patterns_of words.now) }
{
    let mut best: u32 = 0;
    let mut least = t;
    // Of the first i patterns `best` is the first of least key, and `least` its key.
    for i in 0..patterns(words) {
        let k = key_of(t, resources, pattern_at(words, i));
        if k < least {
            best = i;
            least = k;
        }
    }
    best
}
