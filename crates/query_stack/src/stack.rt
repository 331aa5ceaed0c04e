// The stack of a query's walk: the place with what it binds kept beside it, so that a visit that misses changes one
// number and copies nothing (paper 01, "Next of a question").
//
// A turn of the walk leaves the deepest level, visits its record, or enters the next pattern; each is a function
// here, and so are the replies that a walk ends with. A reply's cursor has the number of reclaims that it is given.
ghost use Rattle.std.specs.Prelude.{◌≡◌, [], ◌-◌, ◌<◌, ◌≤◌, length, get_or};
ghost use Rattle.table.specs.Held.{StatementHeld};
ghost use Rattle.chain_walk.specs.declared.walk.Sought.TheVariants.{LiveMatch};
ghost use Rattle.chain.specs.Chains.{PatternHeld};
ghost use Rattle.chain_walk.specs.Walks.{visit_of};
ghost use Rattle.graph.specs.Query.{ended, found, answered, packed};
ghost use Rattle.graph.specs.Place.{no_level, levels_of, inside, level, cursor_at, cursor_with};
ghost use Rattle.graph.specs.Words.{max_patterns, patterns_of, pattern, under};
ghost use Rattle.pattern_level.specs.Levels.{QueryOk, LevelsHeld};
ghost use Rattle.query_stack.specs.Stack.{deepest, entered, stand_as, popped_as, entered_as, met_at, NextHeld};
ghost use Rattle.query_stack.specs.Stack.{tried_as, over_as, onto};

use chain::pick::{pick_chain, pickable, start_of};
use chain_walk::walk::{Sought, Visited, visit};
use graph::{Level, MAX_PATTERNS, Progress, QueryAnswer, QueryCursor, QueryStep, Solution};
use pattern::binding::{meet, none_bound, under};
use pattern::words::{pattern_at, patterns};
use pattern_level::level::{bindings, cursor_of, past, remains};
use store::{Chain, Refusal, StatementId, Triple};
use table::word::triple_at;

// Where the walk stands: the deepest level, from 0; the levels; what those before the deepest bind;
// the deepest level's pattern under them, 0 for an open variable. The levels are the cursor's array, and what is entered
// is written in place: there is no heap.
#[derive(Clone, Copy)]
pub struct Stack {
    pub top: u32,
    pub levels: [Level; MAX_PATTERNS],
    pub bound: Solution,
    pub asked: Triple,
}

// What a turn writes over the stack: what the levels before the deepest bind; the deepest level's pattern under them;
// that level; its number, from 0. The array comes first: copies of it then start at a whole word.
#[derive(Clone, Copy)]
pub struct Turned {
    pub bound: Solution,
    pub asked: Triple,
    pub level: Level,
    pub top: u32,
}

// What a record put to a pattern leads to: another place, or a whole solution, which is then what the stack has bound.
#[derive(Clone, Copy)]
pub enum Outcome {
    Onward(Turned),
    Whole(Turned),
}

impl Stack {
    // Write over the stack what a turn gives.
    pub fn write(&mut self, m: Turned)
        requires { m.top < max_patterns }
        ensures { self.new ≡ onto self.old.levels m }
    {
        self.bound = m.bound;
        self.asked = m.asked;
        self.top = m.top;
        self.levels[m.top as usize] = m.level;
    }
}

// A level of a chain, at record n.
pub fn level(chain: Chain, n: StatementId) -> Level
    ensures { result ≡ level chain n.0 }
{
    Level {
        chain: chain,
        statement: n,
    }
}

// A cursor with no levels.
pub fn no_levels(generation: u32, progress: Progress) -> QueryCursor
    ensures { result ≡ cursor_with generation progress [] }
{
    let none = level(Chain::All, StatementId(0));
    let levels = [none; MAX_PATTERNS];
    cursor_of(generation, progress, levels, 0)
}

// No solution is left: the end.
pub fn ended(generation: u32, visits: u32) -> QueryAnswer
    ensures { Ok result ≡ packed generation (ended visits) }
{
    QueryAnswer {
        step: QueryStep::Ended,
        visits: visits,
        solution: none_bound(),
        cursor: no_levels(generation, Progress::End),
    }
}

// Found or spent: a solution, or zeros, and the place.
pub fn standing(
    generation: u32,
    step: QueryStep,
    visits: u32,
    solution: Solution,
    levels: [Level; MAX_PATTERNS],
    top: u32,
) -> QueryAnswer
    requires { top < max_patterns }
    ensures { result ≡ answered step visits solution.values
        (cursor_at generation (inside (get_or levels top no_level) (levels_of levels top))) }
{
    QueryAnswer {
        step: step,
        visits: visits,
        solution: solution,
        cursor: cursor_of(generation, Progress::Within, levels, top + 1),
    }
}

// Levels with what they bind.
pub fn stand(statements: &[u32], words: &[u32], levels: [Level; MAX_PATTERNS], top: u32) -> Stack
    requires { QueryOk words.now × (top < length (patterns_of words.now))
        × LevelsHeld statements.now levels top }
    ensures { result ≡ stand_as statements.now (patterns_of words.now) levels top }
{
    let bound = bindings(statements, words, levels, top);
    let asked = under(bound, pattern_at(words, top));
    Stack {
        top: top,
        levels: levels,
        bound: bound,
        asked: asked,
    }
}

// The deepest level is left: the one before it goes on along its chain.
pub fn popped(statements: &[u32], words: &[u32], q: Stack) -> Turned
    requires { QueryOk words.now × (q.top < length (patterns_of words.now)) × (1 ≤ q.top)
        × LevelsHeld statements.now q.levels q.top }
    ensures { result ≡ popped_as statements.now (patterns_of words.now) q }
{
    let top = q.top - 1;
    let levels = q.levels;
    let l = levels[top as usize];
    let bound = bindings(statements, words, levels, top);
    Turned {
        bound: bound,
        asked: under(bound, pattern_at(words, top)),
        level: past(statements, l),
        top: top,
    }
}

// The next pattern is entered, at no visit: its chain is picked as a scan's, which a damaged count refuses.
pub fn enter(
    t: u32,
    resources: &[u32],
    words: &[u32],
    top: u32,
    bound: Solution,
) -> Result<Turned, Refusal>
    requires { QueryOk words.now × (top < length (patterns_of words.now))
        × PatternHeld resources.now (under bound.values (get_or (patterns_of words.now) top (pattern 0 0 0))) }
    ensures { result ≡ entered_as t resources.now
        (under bound.values (get_or (patterns_of words.now) top (pattern 0 0 0))) top bound }
{
    let x = under(bound, pattern_at(words, top));
    if !pickable(t, resources, x) {
        return Err(Refusal::Damaged);
    }
    let chain = pick_chain(resources, x);
    Ok(Turned {
        bound: bound,
        asked: x,
        level: level(chain, start_of(t, resources, chain, x)),
        top: top,
    })
}

// A live record of level l that the chain's scan would give is put to the pattern: no match, on along the chain to
// record `next`; a match of the last pattern, a whole solution; of an earlier one, the next pattern is entered at
// once. Before it, b is bound, and the pattern is x.
pub fn tried(
    t: u32,
    resources: &[u32],
    statements: &[u32],
    words: &[u32],
    top: u32,
    l: Level,
    x: Triple,
    b: Solution,
    next: StatementId,
) -> Result<Outcome, Refusal>
    requires { QueryOk words.now × (top < length (patterns_of words.now))
        × StatementHeld statements.now l.statement.0
        × NextHeld resources.now statements.now (patterns_of words.now) top l b }
    ensures { result ≡ tried_as t resources.now (patterns_of words.now) top l x b next.0
        (met_at statements.now (patterns_of words.now) top l b) }
{
    let met = meet(
        pattern_at(words, top),
        triple_at(statements, l.statement),
        b,
    );
    let after = moved(l, next);
    match met {
        None => Ok(Outcome::Onward(Turned {
            bound: b,
            asked: x,
            level: after,
            top: top,
        })),
        Some(bound) => {
            if top + 1 == patterns(words) {
                return Ok(Outcome::Whole(Turned {
                    bound: bound,
                    asked: x,
                    level: after,
                    top: top,
                }));
            }
            Ok(Outcome::Onward(enter(t, resources, words, top + 1, bound)?))
        }
    }
}

// The budget is spent: ended where no chain has a record left. Chains that have run out stay in the place.
pub fn out_of_budget(generation: u32, statements: &[u32], q: Stack, visits: u32) -> QueryAnswer
    requires { (q.top < max_patterns) × LevelsHeld statements.now q.levels q.top }
    ensures { Ok result ≡ packed generation (over_as statements.now q visits) }
{
    let levels = q.levels;
    if remains(statements, levels, q.top) {
        return standing(
            generation,
            QueryStep::Spent,
            visits,
            none_bound(),
            levels,
            q.top,
        );
    }
    ended(generation, visits)
}

// A whole solution is found: the stack has bound it.
pub fn whole(generation: u32, s: Stack, visits: u32) -> QueryAnswer
    requires { s.top < max_patterns }
    ensures { Ok result ≡ packed generation (found s.bound.values visits (inside (deepest s) (entered s))) }
{
    let solution = s.bound;
    let levels = s.levels;
    standing(
        generation,
        QueryStep::Found,
        visits,
        solution,
        levels,
        s.top,
    )
}

// A level at another record of its chain.
pub fn moved(l: Level, n: StatementId) -> Level
    ensures { result ≡ level l.chain n.0 }
{
    let chain = l.chain;
    level(chain, n)
}

// A visit of a level's record, where x is the level's pattern under the earlier levels: a live record that x lets
// through, or another, with the next record on the chain; a damaged record is refused.
pub fn seen(statements: &[u32], r: u32, l: Level, x: Triple) -> Result<Visited, Refusal>
    requires { StatementHeld statements.now l.statement.0 }
    ensures { result ≡ visit_of LiveMatch r statements.now l.chain x (l.statement.0 - 1) }
{
    let chain = l.chain;
    visit(statements, r, chain, x, Sought::LiveMatch, l.statement)
}
