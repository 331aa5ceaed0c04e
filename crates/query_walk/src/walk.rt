// The walk of a query: level by level along the chains, up to the first whole solution (paper 01, "Next of a
// question").
ghost use Rattle.std.specs.Prelude.{◌≡◌};
ghost use Rattle.graph.specs.Query.{packed, walk};
ghost use Rattle.graph.specs.Words.{patterns_of};
ghost use Rattle.query_stack.specs.Stack.{deepest, entered};
ghost use Rattle.query_walk.specs.Turn.{Ready, Stands};

use chain_walk::walk::Visited;
use graph::QueryAnswer;
use query_stack::stack::{Outcome, Stack, ended, moved, out_of_budget, popped, seen, tried, whole};
use store::{Counters, Refusal};

// The walk from a place, with at most `budget` visits: the loop is left from inside, by its label, at the first whole
// solution, with the stack that has bound it. Chains that have run out are left only once a further visit is sought.
pub fn walk(
    c: Counters,
    resources: &[u32],
    statements: &[u32],
    words: &[u32],
    from: Stack,
    budget: u32,
) -> Result<QueryAnswer, Refusal>
    requires { Ready c.resources c.statements resources.now statements.now words.now
        × Stands c.resources c.statements statements.now words.now from }
    ensures { result ≡ packed c.generation (walk c.resources c.statements resources.now
        statements.now (patterns_of words.now) budget (deepest from) (entered from) 0) }
{
    let mut q = from;
    let mut visits: u32 = 0;
    // Here and in the loop within: `visits` were made and no solution found, and the walk from q with what is left of
    // the budget answers as the walk asked for. The loop is left by its label with the stack that has bound the solution: the
    // form that docs/DECISIONS.md names for this walk ("Forms").
    let found = 'walk: loop {
        // Along the deepest level's chain; a match enters the next pattern.
        loop {
            if visits == budget {
                return Ok(out_of_budget(c.generation, statements, q, visits));
            }
            let l = q.levels[q.top as usize];
            if l.statement.0 == 0 {
                break;
            }
            visits += 1;
            let x = q.asked;
            let visited = seen(statements, c.resources, l, x)?;
            match visited {
                Visited::Miss(n) => {
                    let after = moved(l, n);
                    q.levels[q.top as usize] = after;
                }
                Visited::Hit(n) => {
                    let outcome = tried(
                        c.statements,
                        resources,
                        statements,
                        words,
                        q.top,
                        l,
                        x,
                        q.bound,
                        n,
                    )?;
                    match outcome {
                        Outcome::Onward(m) => q.write(m),
                        Outcome::Whole(m) => {
                            q.write(m);
                            break 'walk q;
                        }
                    }
                }
            }
        }
        // The chain has run out, and its level is left.
        if q.top == 0 {
            return Ok(ended(c.generation, visits));
        }
        let m = popped(statements, words, q);
        q.write(m);
    };
    Ok(whole(c.generation, found, visits))
}
