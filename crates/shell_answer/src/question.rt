// A question read through.
ghost use Rattle.table.specs.Lent.{held};
ghost use Rattle.graph.specs.Claims.{read_on, next_reply};
ghost use Rattle.shell_answer.specs.Told.{TellsOf, account};
ghost use Rattle.shell_answer.specs.Claims.{QuestionRead};

use crate::{BUDGET, CALLS, End, Told};
use graph::{QueryCursor, QueryStep};
use shell_print::names;
use store::Counters;
use streams::Outputs;
use table::lent::Tables;

// Reads on from a cursor until the reading has ended, or a write fails, and writes each solution as it comes.
// `list` has such a loop too: replies differ in type and in what they find, and one loop over both would take two closures with clauses
// longer than the loop.
fn read_on(
    rt: &impl Outputs,
    c: Counters,
    tables: Tables,
    words: &[u32],
    variables: usize,
    start: QueryCursor,
) -> Told
    ensures { TellsOf (read_on (next_reply c
        (held tables.entry) words.now) start) (account result) }
{
    let mut q = start;
    let mut found: u64 = 0;
    let mut visits: u64 = 0;
    // `found` solutions are written, with `visits` visits; `q` is how far the reading is.
    for _ in 0..CALLS {
        let a = match query::query_next(c, tables, words, q, BUDGET) {
            Ok(a) => a,
            Err(e) => return Told {
                end: End::Refused(e),
                found,
                visits,
            },
        };
        let step = a.step;
        visits += a.visits as u64;
        match step {
            QueryStep::Ended => return Told {
                end: End::Ended,
                found,
                visits,
            },
            QueryStep::Found => {
                let s = a.solution;
                found += 1;
                if !names::solution(rt, c, tables, s, variables) {
                    return Told {
                        end: End::Unwritten,
                        found,
                        visits,
                    };
                }
            }
            QueryStep::Spent => {}
        }
        q = a.cursor;
    }
    Told {
        end: End::Stopped,
        found,
        visits,
    }
}

// Reads the question of these words through. The solutions' first `variables` variables are written.
pub fn read_through(
    rt: &impl Outputs,
    c: Counters,
    tables: Tables,
    words: &[u32],
    variables: usize,
) -> Told
    ensures { QuestionRead c (held tables.entry)
        words.now result }
{
    match query::query_open(c, tables, words) {
        Err(e) => Told {
            end: End::Refused(e),
            found: 0,
            visits: 0,
        },
        Ok(q) => read_on(rt, c, tables, words, variables, q),
    }
}
