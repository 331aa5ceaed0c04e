// The file of the live statements, for C.
//
// Output and working words may be lent in any length, none too: where they do not hold the file and T words the call is
// refused 11, never 100. A refusal writes neither. The contract is an equation with `export_call` in `specs/Calls.antt` of
// `capi_calls`, on any tables.
ghost use Rattle.std.specs.Prelude.{◌≡◌};
ghost use Rattle.store.specs.Tables.{lent};
ghost use Rattle.capi_calls.specs.Words.{filed};
ghost use Rattle.capi_calls.specs.Calls.{export_call};

use capi_calls::{NUMBER_REPLY_WORDS, TOO_SHORT};
use capi_words::replies::total_answer;
use capi_words::words::counters_beside;
use table::lent::Tables;

// Write the file: the reply has its length in bytes; the first T working words are 0 afterwards.
pub fn lt_export(
    counters: &[u32],
    resources: &[u32],
    statements: &[u32],
    index: &[u32],
    text: &[u8],
    out: &mut [u8],
    work: &mut [u32],
    reply: &mut [u32],
) -> u32
    ensures { filed result out.new work.new reply.new
        ≡ export_call counters.now (lent resources.entry statements.entry index.entry text.entry)
        out.old work.old reply.old }
{
    let Some(c) = counters_beside(counters, reply, NUMBER_REPLY_WORDS) else {
        return TOO_SHORT;
    };
    let tables = Tables {
        resources,
        statements,
        index,
        text,
    };
    let a = total_answer(exporter::export_file(c, tables, out, work));
    reply[0] = a.number;
    a.result
}
