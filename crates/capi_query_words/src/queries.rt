// A query's cursor and its reply as words.
//
// A cursor's words are its progress (0 start, 1 within, 2 end), the levels entered, the number of reclaims, then chain
// and record of each of `MAX_PATTERNS` levels, zeros past those entered. A first word above 2, or the chain of an
// entered level above 3, tells no cursor and is refused 6, or 13 where the third word is not the store's; slots past
// the levels entered are ignored, and so are all slots at the start and at the end. A reply's words are its status (1
// found, 2 ended, 3 spent), the visits, and the number of each of the `VARIABLES` variables, 0 for one not used.
//
// Functions and no `From`: the types are other crates', so that no impl may stand here.
ghost use Rattle.std.specs.Prelude.{◌≡◌, ◌≤◌, ◌∷◌, length};
ghost use Rattle.std.proofs.lemmas.List.Edits.{sets};
ghost use Rattle.graph.specs.Words.{max_patterns, variables};
ghost use Rattle.graph.specs.Values.{step_status};
ghost use Rattle.store.specs.Lists.{all_below};
ghost use Rattle.capi_calls.specs.QueryWords.{query_cursor_words, query_reply_words, progress_of, progress_word, levels_from};
ghost use Rattle.capi_calls.specs.QueryWords.{query_cursor_of, chain_spelt, slots_of, spelt, level_words, with_query_cursor};
ghost use Rattle.capi_calls.specs.QueryWords.{numbers_from, with_query_answer};

use capi_words::words::{chain_of, chain_word};
use graph::{Level, MAX_PATTERNS, Progress, QueryAnswer, QueryCursor, QueryStep, Solution};
use pattern::binding::none_bound;
use store::{Chain, Refusal, StatementId};

// How far a reading is, from a cursor's first word of at most 2.
fn progress_of(k: u32) -> Progress
    ensures { result ≡ progress_of k }
{
    match k {
        1 => Progress::Within,
        2 => Progress::End,
        _ => Progress::Start,
    }
}

fn progress_word(progress: Progress) -> u32
    ensures { result ≡ progress_word progress }
{
    match progress {
        Progress::Start => 0,
        Progress::Within => 1,
        Progress::End => 2,
    }
}

// The levels in a cursor's slots. A chain's word above 3 reads as none: it stands in a slot that is ignored, or `spelt`
// has refused it.
fn levels_of(words: &[u32]) -> [Level; MAX_PATTERNS]
    requires { query_cursor_words ≤ length words.now }
    ensures { result ≡ levels_from words.now 3 max_patterns }
{
    let none = Level {
        chain: Chain::All,
        statement: StatementId(0),
    };
    let mut out = [none; MAX_PATTERNS];
    // The first i levels are read, the others are none.
    for i in 0..MAX_PATTERNS {
        let chain = chain_of(words[3 + 2 * i]);
        let word = words[4 + 2 * i];
        out[i] = Level {
            chain,
            statement: StatementId(word),
        };
    }
    out
}

// The cursor that words tell.
pub fn query_cursor_of(words: &[u32]) -> QueryCursor
    requires { query_cursor_words ≤ length words.now }
    ensures { result ≡ query_cursor_of words.now }
{
    QueryCursor {
        progress: progress_of(words[0]),
        depth: words[1],
        generation: words[2],
        levels: levels_of(words),
    }
}

// How many slots the levels entered take.
fn slots(d: u32) -> usize
    ensures { (result ≡ slots_of d) × (result ≤ max_patterns) }
{
    let n = d as usize;
    n.min(MAX_PATTERNS)
}

// Whether the chains in the first d slots are at most 3.
fn chains_spelt(words: &[u32], d: usize) -> bool
    requires { (d ≤ max_patterns) × (query_cursor_words ≤ length words.now) }
    ensures { result ≡ all_below (chain_spelt words.now) d }
{
    // The chains in the first i slots are at most 3.
    for i in 0..d {
        if words[3 + 2 * i] > 3 {
            return false;
        }
    }
    true
}

// Whether words tell a cursor; where not, next refuses 6, or 13 for another number of reclaims.
pub fn spelt(words: &[u32]) -> bool
    requires { query_cursor_words ≤ length words.now }
    ensures { result ≡ spelt words.now }
{
    if words[0] > 2 {
        return false;
    }
    if words[0] != 1 {
        return true;
    }
    chains_spelt(words, slots(words[1]))
}

// Writes chain and record of each level into a cursor's slots.
fn put_levels(words: &mut [u32], levels: [Level; MAX_PATTERNS])
    requires { query_cursor_words ≤ length words.old }
    ensures { words.new ≡ sets words.old 3 (level_words levels 0 max_patterns) }
{
    // The first i slots are written: writing the levels from i on leaves what writing all of them would.
    for (i, l) in levels.iter().enumerate() {
        words[3 + 2 * i] = chain_word(l.chain);
        words[4 + 2 * i] = l.statement.0;
    }
}

// Writes a cursor's words.
pub fn put_query_cursor(words: &mut [u32], q: QueryCursor)
    requires { query_cursor_words ≤ length words.old }
    ensures { words.new ≡ with_query_cursor words.old q }
{
    words[0] = progress_word(q.progress);
    words[1] = q.depth;
    words[2] = q.generation;
    put_levels(words, q.levels);
}

// Writes the number of each variable into a reply.
fn put_solution(reply: &mut [u32], s: Solution)
    requires { query_reply_words ≤ length reply.old }
    ensures { reply.new ≡ sets reply.old 2 (numbers_from s.values 0 variables) }
{
    // The numbers of the first v variables are written: writing those from v on leaves what writing all of them would.
    for (v, y) in s.values.iter().enumerate() {
        reply[2 + v] = y.0;
    }
}

// 1 found, 2 ended, 3 spent.
fn step_status(step: QueryStep) -> u32
    ensures { result ≡ step_status step }
{
    match step {
        QueryStep::Found => 1,
        QueryStep::Ended => 2,
        QueryStep::Spent => 3,
    }
}

// Writes a reply's words, from its first on.
fn put_words(reply: &mut [u32], status: u32, visits: u32, s: Solution)
    requires { query_reply_words ≤ length reply.old }
    ensures { reply.new ≡ sets reply.old 0 (status ∷ visits ∷ numbers_from s.values 0 variables) }
{
    reply[0] = status;
    reply[1] = visits;
    put_solution(reply, s);
}

// Writes a reply's words, zeros beside a refusal.
pub fn put_query_answer(reply: &mut [u32], a: Result<QueryAnswer, Refusal>)
    requires { query_reply_words ≤ length reply.old }
    ensures { reply.new ≡ with_query_answer reply.old a }
{
    match a {
        Ok(answer) => put_words(
            reply,
            step_status(answer.step),
            answer.visits,
            answer.solution,
        ),
        Err(_) => put_words(reply, 0, 0, none_bound()),
    }
}
