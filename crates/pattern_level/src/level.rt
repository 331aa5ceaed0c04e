// The levels of a query's place: one for each pattern entered, its chain and a record on it (paper 01, "Next of a
// question").
//
// Levels stand in an array, the first pattern first; a function is told how many of them count. The array is the
// cursor's, which has a place for each of six in C's words, and the next level is written into it where it stands: a
// slice of those that count would be no plainer. What each entered record must be for its words to be read is asked of
// the caller, who has tested it (refusal 6) or visited the record.
ghost use Rattle.std.specs.Prelude.{◌≡◌, ◌<◌, ◌≤◌, length, get_or};
ghost use Rattle.table.specs.Held.{StatementHeld};
ghost use Rattle.graph.specs.Query.{past, level_retracted, intact, remains, binds};
ghost use Rattle.graph.specs.Place.{no_level, levels_of, written, cursor_with};
ghost use Rattle.graph.specs.Words.{max_patterns, patterns_of};
ghost use Rattle.pattern_level.specs.Levels.{QueryOk, LevelsHeld, level_intact, FirstRetracted};

use chain_walk::walk::link_of;
use graph::{Level, MAX_PATTERNS, Progress, QueryCursor, Solution};
use pattern::binding::{meet, none_bound};
use pattern::words::pattern_at;
use store::{Chain, StatementId};
use table::word::{flag_at, triple_at};

// A level after its record, on its chain.
pub fn past(statements: &[u32], l: Level) -> Level
    requires { StatementHeld statements.now l.statement.0 }
    ensures { result ≡ past statements.now l }
{
    let chain = l.chain;
    let n = l.statement;
    Level {
        chain: chain,
        statement: link_of(statements, chain, n),
    }
}

// Whether a level's record is retracted.
pub fn level_retracted(statements: &[u32], l: Level) -> bool
    requires { StatementHeld statements.now l.statement.0 }
    ensures { result ≡ level_retracted statements.now l }
{
    let n = l.statement;
    flag_at(statements, n) == 1
}

// Whether a level's record has a flag of at most 1 and a next on its chain below its own number.
pub fn level_intact(statements: &[u32], l: Level) -> bool
    requires { StatementHeld statements.now l.statement.0 }
    ensures { result ≡ level_intact statements.now l }
{
    let n = l.statement;
    if flag_at(statements, n) > 1 {
        return false;
    }
    let after = past(statements, l);
    after.statement.0 < n.0
}

// What the first d levels bind.
pub fn bindings(
    statements: &[u32],
    words: &[u32],
    levels: [Level; MAX_PATTERNS],
    d: u32,
) -> Solution
    requires { QueryOk words.now × (d < length (patterns_of words.now)) × LevelsHeld statements.now levels d }
    ensures { result.values ≡ binds statements.now (patterns_of words.now)
        (levels_of levels d) }
{
    let mut bound = none_bound();
    // `bound` is what the first i levels bind.
    for i in 0..d {
        let l = levels[i as usize];
        let n = l.statement;
        bound = meet(pattern_at(words, i), triple_at(statements, n), bound).unwrap_or(bound);
    }
    bound
}

// Whether the records of the first d levels have flags of at most 1 and nexts below their own numbers;
// where not, next refuses 9 before any visit.
pub fn intact(statements: &[u32], levels: [Level; MAX_PATTERNS], d: u32) -> bool
    requires { LevelsHeld statements.now levels d }
    ensures { result ≡ intact statements.now (levels_of levels d) }
{
    // The records of the levels so far are intact.
    for l in &levels[..d as usize] {
        if !level_intact(statements, *l) {
            return false;
        }
    }
    true
}

// The first of d levels whose record was retracted since, or d.
pub fn first_retracted(statements: &[u32], levels: [Level; MAX_PATTERNS], d: u32) -> u32
    requires { LevelsHeld statements.now levels d }
    ensures { FirstRetracted statements.now levels d result }
{
    // No record of the first i levels is retracted.
    for i in 0..d {
        if level_retracted(statements, levels[i as usize]) {
            return i;
        }
    }
    d
}

// Whether a record remains on a chain: of the deepest level, which is level `top` from 0, or of one entered before it.
pub fn remains(statements: &[u32], levels: [Level; MAX_PATTERNS], top: u32) -> bool
    requires { (top < max_patterns) × LevelsHeld statements.now levels top }
    ensures { result ≡ remains statements.now (get_or levels top no_level) (levels_of levels top) }
{
    let l = levels[top as usize];
    if l.statement.0 != 0 {
        return true;
    }
    // No record remains on the chains of the levels so far.
    for e in &levels[..top as usize] {
        let after = past(statements, *e);
        if after.statement.0 != 0 {
            return true;
        }
    }
    false
}

// The first d levels, zeros past them.
pub fn written(levels: [Level; MAX_PATTERNS], d: u32) -> [Level; MAX_PATTERNS]
    requires { d ≤ max_patterns }
    ensures { result ≡ written (levels_of levels d) }
{
    let none = Level {
        chain: Chain::All,
        statement: StatementId(0),
    };
    let mut out = [none; MAX_PATTERNS];
    out[..d as usize].copy_from_slice(&levels[..d as usize]);
    out
}

// The cursor of d levels, with the number of reclaims.
pub fn cursor_of(
    generation: u32,
    progress: Progress,
    levels: [Level; MAX_PATTERNS],
    d: u32,
) -> QueryCursor
    requires { d ≤ max_patterns }
    ensures { result ≡ cursor_with generation progress (levels_of levels d) }
{
    let w = written(levels, d);
    QueryCursor {
        progress: progress,
        depth: d,
        generation: generation,
        levels: w,
    }
}
