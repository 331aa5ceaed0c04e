// The place of a query's cursor, tested level by level: where it is none, next refuses 6 (paper 01, "Next of a
// question").
//
// A test that holds hands on what the levels before the deepest bind, so that a reading that goes on does not bind them
// again. That the words are a query and that the records lie in the table is asked: both were told once, before the first
// test, and what C lends stays a slice.
ghost use Rattle.std.specs.Prelude.{◌≡◌, true, ◌*◌, ◌<◌, ◌≤◌, length};
ghost use Rattle.store.specs.Tables.{statement_words};
ghost use Rattle.graph.specs.Place.{levels_of};
ghost use Rattle.graph.specs.Words.{patterns_of};
ghost use Rattle.pattern.specs.Matching.{PatternOk};
ghost use Rattle.pattern_level.specs.Levels.{QueryOk};
ghost use Rattle.pattern_place.specs.Tested.{LevelTested, LevelsTested, deepest_ok, InsideTested, PlaceTested};

use chain::pick::chain_ok;
use chain::plan::resource_of;
use chain_walk::walk::record_has;
use graph::{Level, MAX_PATTERNS, Progress, QueryCursor, QueryPattern, Solution};
use pattern::binding::{meet, none_bound, under};
use pattern::words::{pattern_at, patterns};
use store::{Counters, Triple};
use table::known;
use table::word::triple_at;

// What is bound from an entered level on, where it is one: a record of the table, a chain that a scan would take,
// resources in 1..=R, a match under the earlier levels.
pub fn level_ok(
    c: Counters,
    statements: &[u32],
    x: QueryPattern,
    bound: Solution,
    l: Level,
) -> Option<Solution>
    requires { PatternOk x × (statement_words * c.statements ≤ length statements.now) }
    ensures { LevelTested c.resources c.statements statements.now x bound l result }
{
    let n = l.statement;
    if n.0 == 0 {
        return None;
    }
    if n.0 > c.statements {
        return None;
    }
    let chain = l.chain;
    if !chain_ok(chain, under(bound, x)) {
        return None;
    }
    let t = triple_at(statements, n);
    if !known(c.resources, t) {
        return None;
    }
    meet(x, t, bound)
}

// What the first d levels bind, where they can have been entered.
pub fn levels_ok(
    c: Counters,
    statements: &[u32],
    words: &[u32],
    levels: [Level; MAX_PATTERNS],
    d: u32,
) -> Option<Solution>
    requires { QueryOk words.now × (d < length (patterns_of words.now))
        × (statement_words * c.statements ≤ length statements.now) }
    ensures { LevelsTested c.resources c.statements statements.now
        (patterns_of words.now) (levels_of levels d) result }
{
    let mut bound = none_bound();
    // The first i levels can have been entered, and `bound` is what they bind.
    for i in 0..d {
        bound = level_ok(
            c,
            statements,
            pattern_at(words, i),
            bound,
            levels[i as usize],
        )?;
    }
    Some(bound)
}

// Whether the deepest level is one, its pattern under the earlier levels being x:
// a number up to T, a chain and a record that a scan would take.
pub fn deepest_ok(c: Counters, statements: &[u32], x: Triple, l: Level) -> bool
    requires { statement_words * c.statements ≤ length statements.now }
    ensures { result ≡ deepest_ok c.statements statements.now x l }
{
    let n = l.statement;
    if n.0 > c.statements {
        return false;
    }
    let chain = l.chain;
    if !chain_ok(chain, x) {
        return false;
    }
    record_has(statements, chain, resource_of(chain, x), n)
}

// What the levels before the deepest bind, where d levels can be where a reading stands; where not, next refuses 6.
pub fn inside_ok(
    c: Counters,
    statements: &[u32],
    words: &[u32],
    levels: [Level; MAX_PATTERNS],
    d: u32,
) -> Option<Solution>
    requires { QueryOk words.now × (statement_words * c.statements ≤ length statements.now) }
    ensures { InsideTested c.resources c.statements statements.now
        (patterns_of words.now) levels d result }
{
    if d == 0 {
        return Some(none_bound());
    }
    if d > patterns(words) {
        return None;
    }
    let top = d - 1;
    let bound = levels_ok(c, statements, words, levels, top)?;
    let x = under(bound, pattern_at(words, top));
    if !deepest_ok(c, statements, x, levels[top as usize]) {
        return None;
    }
    Some(bound)
}

// What the levels of a cursor's place before the deepest bind, where it is one; where not, next refuses 6.
pub fn place_ok(c: Counters, statements: &[u32], words: &[u32], q: QueryCursor) -> Option<Solution>
    requires { QueryOk words.now × (statement_words * c.statements ≤ length statements.now) }
    ensures { PlaceTested c.resources c.statements statements.now
        (patterns_of words.now) q result }
{
    match q.progress {
        Progress::Start | Progress::End => Some(none_bound()),
        Progress::Within => inside_ok(c, statements, words, q.levels, q.depth),
    }
}
