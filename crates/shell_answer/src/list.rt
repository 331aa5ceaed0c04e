// A list read through.
ghost use Rattle.table.specs.Lent.{held};
ghost use Rattle.graph.specs.Claims.{read_on, scan_next};
ghost use Rattle.shell_answer.specs.Told.{TellsOf, account};
ghost use Rattle.shell_answer.specs.Claims.{ListRead};

use crate::{BUDGET, CALLS, End, Told};
use shell_print::names;
use store::{Counters, ScanCursor, Scanned, Triple};
use streams::Outputs;
use table::lent::Tables;

// Reads on from a cursor until the reading has ended, or a write fails, and writes each statement as it comes.
// `question` has such a loop too: replies differ in type and in what they find, and one loop over both would take two closures with clauses
// longer than the loop.
fn read_on(rt: &impl Outputs, c: Counters, tables: Tables, start: ScanCursor) -> Told
    ensures { TellsOf (read_on (scan_next c
        (held tables.entry)) start) (account result) }
{
    let mut q = start;
    let mut found: u64 = 0;
    let mut visits: u64 = 0;
    // `found` statements are written, with `visits` visits; `q` is how far the reading is.
    for _ in 0..CALLS {
        let reply = match scan::scan_next(c, tables, q, BUDGET) {
            Ok(reply) => reply,
            Err(e) => return Told {
                end: End::Refused(e),
                found,
                visits,
            },
        };
        match reply {
            Scanned::Ended(v, _) => return Told {
                end: End::Ended,
                found,
                visits: visits + v as u64,
            },
            Scanned::Found(n, v, next) => {
                found += 1;
                visits += v as u64;
                if !names::statement(rt, c, tables, n) {
                    return Told {
                        end: End::Unwritten,
                        found,
                        visits,
                    };
                }
                q = next;
            }
            Scanned::Spent(v, next) => {
                visits += v as u64;
                q = next;
            }
        }
    }
    Told {
        end: End::Stopped,
        found,
        visits,
    }
}

// Reads the list of a pattern through, 0 standing for any.
pub fn read_through(rt: &impl Outputs, c: Counters, tables: Tables, x: Triple) -> Told
    ensures { ListRead c (held tables.entry) x result }
{
    match scan::scan_open(c, tables, x) {
        Err(e) => Told {
            end: End::Refused(e),
            found: 0,
            visits: 0,
        },
        Ok(q) => read_on(rt, c, tables, q),
    }
}
