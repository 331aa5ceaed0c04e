// Where a next call goes on: before the first pattern, within its levels, or at the end (paper 01, "Next of a
// question").
ghost use Rattle.std.specs.Prelude.{◌≡◌, true, ◌<◌, ◌≤◌, length, get_or};
ghost use Rattle.graph.specs.Query.{place_ok, packed, resume, binds};
ghost use Rattle.graph.specs.Place.{no_level, start, inside, place_of, levels_of};
ghost use Rattle.graph.specs.Words.{max_patterns, patterns_of};
ghost use Rattle.pattern_level.specs.Levels.{QueryOk, LevelsHeld};
ghost use Rattle.pattern_place.specs.Tested.{Handed};
ghost use Rattle.query_walk.specs.Turn.{Ready};
ghost use Rattle.query.specs.Resume.{Pruned, onward_as};

use graph::{Level, MAX_PATTERNS, Progress, QueryAnswer, QueryCursor, QueryStep, Solution};
use pattern::binding::{none_bound, under};
use pattern::words::{pattern_at, patterns};
use pattern_level::level::{first_retracted, intact, past, written};
use query_stack::stack::{Stack, ended, enter, no_levels, stand};
use query_walk::walk::walk;
use store::{Counters, Refusal};

// Before the first solution: the first pattern is entered, at no visit. No patterns give one empty solution, with the
// end as place.
pub fn begin(
    c: Counters,
    resources: &[u32],
    statements: &[u32],
    words: &[u32],
    budget: u32,
) -> Result<QueryAnswer, Refusal>
    requires { Ready c.resources c.statements resources.now statements.now words.now }
    ensures { result ≡ packed c.generation (resume c.resources c.statements resources.now
        statements.now (patterns_of words.now) start budget) }
{
    if patterns(words) == 0 {
        return Ok(QueryAnswer {
            step: QueryStep::Found,
            visits: 0,
            solution: none_bound(),
            cursor: no_levels(c.generation, Progress::End),
        });
    }
    let bare = no_levels(0, Progress::Start);
    let levels = bare.levels;
    let m = enter(c.statements, resources, words, 0, none_bound())?;
    let mut s = Stack {
        top: m.top,
        levels: levels,
        bound: m.bound,
        asked: m.asked,
    };
    s.write(m);
    walk(c, resources, statements, words, s, budget)
}

// The level to go on from: the deepest, level `top`, or level i after its record, which was retracted since.
pub fn onward(statements: &[u32], levels: [Level; MAX_PATTERNS], top: u32, i: u32) -> Level
    requires { (top < max_patterns) × (i ≤ top) × LevelsHeld statements.now levels top }
    ensures { result ≡ onward_as statements.now levels top i }
{
    let l = levels[i as usize];
    if i < top {
        return past(statements, l);
    }
    l
}

// Below a record retracted since, the levels are left without a visit. What the levels before the deepest bind is b.
pub fn pruned(
    statements: &[u32],
    words: &[u32],
    levels: [Level; MAX_PATTERNS],
    top: u32,
    b: Solution,
) -> Stack
    requires { QueryOk words.now × (top < length (patterns_of words.now)) × LevelsHeld statements.now levels top
        × (b.values ≡ binds statements.now (patterns_of words.now) (levels_of levels top)) }
    ensures { Pruned statements.now (patterns_of words.now) levels top result }
{
    let i = first_retracted(statements, levels, top);
    let l = onward(statements, levels, top, i);
    let mut own = written(levels, i);
    own[i as usize] = l;
    if i == top {
        return Stack {
            top: i,
            levels: own,
            bound: b,
            asked: under(b, pattern_at(words, i)),
        };
    }
    stand(statements, words, own, i)
}

// Within the levels: damage of an entered record is tested first, then the walk goes on.
pub fn go_on(
    c: Counters,
    resources: &[u32],
    statements: &[u32],
    words: &[u32],
    levels: [Level; MAX_PATTERNS],
    top: u32,
    b: Solution,
    budget: u32,
) -> Result<QueryAnswer, Refusal>
    requires { Ready c.resources c.statements resources.now statements.now words.now
        × (place_ok statements.now (patterns_of words.now) c.resources c.statements
        (inside (get_or levels top no_level) (levels_of levels top)) ≡ true)
        × (b.values ≡ binds statements.now (patterns_of words.now) (levels_of levels top)) }
    ensures { result ≡ packed c.generation (resume c.resources c.statements resources.now
        statements.now (patterns_of words.now)
        (inside (get_or levels top no_level) (levels_of levels top)) budget) }
{
    if !intact(statements, levels, top) {
        return Err(Refusal::Damaged);
    }
    let s = pruned(statements, words, levels, top, b);
    walk(c, resources, statements, words, s, budget)
}

// On from a place that 6 accepts, with a budget. What its levels before the deepest bind is b.
pub fn resume(
    c: Counters,
    resources: &[u32],
    statements: &[u32],
    words: &[u32],
    q: QueryCursor,
    b: Solution,
    budget: u32,
) -> Result<QueryAnswer, Refusal>
    requires { Ready c.resources c.statements resources.now statements.now words.now
        × (place_ok statements.now (patterns_of words.now) c.resources c.statements (place_of q) ≡ true)
        × Handed statements.now (patterns_of words.now) q b }
    ensures { result ≡ packed c.generation (resume c.resources c.statements resources.now
        statements.now (patterns_of words.now) (place_of q) budget) }
{
    let progress = q.progress;
    let levels = q.levels;
    match progress {
        Progress::Start => begin(c, resources, statements, words, budget),
        Progress::Within => {
            if q.depth == 0 {
                return begin(c, resources, statements, words, budget);
            }
            go_on(
                c,
                resources,
                statements,
                words,
                levels,
                q.depth - 1,
                b,
                budget,
            )
        }
        Progress::End => Ok(ended(c.generation, 0)),
    }
}
