// Reclaim for C: the room of retracted statements is given back.
//
// Statements may have other numbers afterwards, and every cursor from before is refused 13. The contract is a record in
// `specs/Calls.antt` of `capi_calls`, exact on every input: soundness is no Boolean, so 9 is a field of its own.
ghost use Rattle.store.specs.Tables.{tables};
ghost use Rattle.capi_calls.specs.Words.{done};
ghost use Rattle.capi_calls.specs.Calls.{ReclaimCall};

use capi_calls::{COUNTER_WORDS, TOO_SHORT};
use capi_words::words::{counters_of, put_counters};
use store::refusal_number;

// Reclaim: counters and tables as answered, all as they were beside a refusal (1, 14, 9). There is no reply: the
// counters tell all.
pub fn lt_reclaim(
    counters: &mut [u32],
    resources: &mut [u32],
    statements: &mut [u32],
    index: &[u32],
    text: &[u8],
) -> u32
    ensures { ReclaimCall counters.old (tables resources.old statements.old index.now text.now)
        (tables resources.new statements.new index.now text.now) (done result counters.new) }
{
    if counters.len() < COUNTER_WORDS {
        return TOO_SHORT;
    }
    let c = counters_of(counters);
    match compaction::reclaim(c, resources, statements, index, text) {
        Ok(d) => {
            put_counters(counters, d);
            0
        }
        Err(e) => refusal_number(e),
    }
}
