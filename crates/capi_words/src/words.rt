// Counters, triples and cursors as the words that C lends, read and written, and next of a pattern scan from a cursor's
// words. Functions and no `From`: the types are other crates', so that no impl may stand here. Two bounds are asked
// together at each, of slices that `lemontiller` has tested.
ghost use Rattle.std.specs.Prelude.{◌≡◌, ◌≤◌, false, length, MatchOption};
ghost use Rattle.table.specs.Lent.{held};
ghost use Rattle.store.specs.Shared.{triple};
ghost use Rattle.capi_calls.specs.Words.{counter_words, cursor_words, counters_of, with_counters, long_enough};
ghost use Rattle.capi_calls.specs.Words.{chain_of, chain_word, cursor_from, with_cursor, next_from};

use capi_calls::COUNTER_WORDS;
use store::{
    Chain, Counters, Position, Refusal, ResourceId, ScanCursor, Scanned, StatementId, Triple,
};
use table::lent::Tables;

// Three numbers as a triple or a pattern.
pub fn triple_of(subject: u32, predicate: u32, object: u32) -> Triple
    ensures { result ≡ triple subject predicate object }
{
    Triple {
        subject: ResourceId(subject),
        predicate: ResourceId(predicate),
        object: ResourceId(object),
    }
}

// A cursor's word for its chain: 0 none, 1 subject, 2 predicate, 3 object.
pub fn chain_word(chain: Chain) -> u32
    ensures { result ≡ chain_word chain }
{
    match chain {
        Chain::All => 0,
        Chain::By(Position::Subject) => 1,
        Chain::By(Position::Predicate) => 2,
        Chain::By(Position::Object) => 3,
    }
}

// The chain of a cursor's word.
pub fn chain_of(k: u32) -> Chain
    ensures { result ≡ chain_of k }
{
    match k {
        1 => Chain::By(Position::Subject),
        2 => Chain::By(Position::Predicate),
        3 => Chain::By(Position::Object),
        _ => Chain::All,
    }
}

// Writes a cursor's words.
pub fn put_cursor(words: &mut [u32], q: ScanCursor)
    requires { cursor_words ≤ length words.old }
    ensures { words.new ≡ with_cursor words.old q }
{
    words[0] = q.pattern.subject.0;
    words[1] = q.pattern.predicate.0;
    words[2] = q.pattern.object.0;
    words[3] = chain_word(q.chain);
    words[4] = q.next.0;
    words[5] = q.generation;
}

// The counters that the first words tell.
pub fn counters_of(words: &[u32]) -> Counters
    requires { counter_words ≤ length words.now }
    ensures { result ≡ counters_of words.now }
{
    Counters {
        resources: words[0],
        statements: words[1],
        text: words[2],
        generation: words[3],
    }
}

// The counters that their words tell, where these and a reply or a cursor of n words are lent long enough.
pub fn counters_beside(counters: &[u32], words: &[u32], n: usize) -> Option<Counters>
    ensures { MatchOption result (long_enough counters.now n words.now ≡ false)
        (λ c. (c ≡ counters_of counters.now) × (counter_words ≤ length counters.now) × (n ≤ length words.now)) }
{
    if counters.len() < COUNTER_WORDS || words.len() < n {
        return None;
    }
    Some(counters_of(counters))
}

// Writes the counters' words.
pub fn put_counters(words: &mut [u32], c: Counters)
    requires { counter_words ≤ length words.old }
    ensures { words.new ≡ with_counters words.old c }
{
    words[0] = c.resources;
    words[1] = c.statements;
    words[2] = c.text;
    words[3] = c.generation;
}

// The cursor that words tell, whose chain word is at most 3.
fn cursor_from(words: &[u32]) -> ScanCursor
    requires { cursor_words ≤ length words.now }
    ensures { result ≡ cursor_from words.now }
{
    ScanCursor {
        pattern: triple_of(words[0], words[1], words[2]),
        chain: chain_of(words[3]),
        next: StatementId(words[4]),
        generation: words[5],
    }
}

// Next of a pattern scan from a cursor's words. A chain word above 3 is refused 6, after refusals 1 and 13.
pub fn next_from(
    c: Counters,
    tables: Tables,
    words: &[u32],
    budget: u32,
) -> Result<Scanned, Refusal>
    requires { cursor_words ≤ length words.now }
    ensures { result ≡ next_from c (held tables.entry) words.now budget }
{
    if words[3] > 3 {
        if !table::fits(c, tables) {
            return Err(Refusal::Capacity);
        }
        if words[5] != c.generation {
            return Err(Refusal::StaleCursor);
        }
        return Err(Refusal::BadCursor);
    }
    let q = cursor_from(words);
    scan::scan_next(c, tables, q, budget)
}
