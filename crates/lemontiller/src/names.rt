// Names by their beginning, for C.
//
// Any number of words may be lent for the list, none too; a refusal writes none of them. The contract is a record in
// `specs/Calls.antt` of `capi_calls`, since on unsound tables the operation's is one.
ghost use Rattle.store.specs.Tables.{lent};
ghost use Rattle.capi_calls.specs.Words.{done};
ghost use Rattle.capi_calls.specs.Calls.{PrefixCall};

use capi_calls::{NUMBER_REPLY_WORDS, TOO_SHORT};
use capi_words::replies::total_answer;
use capi_words::words::counters_beside;
use table::lent::Tables;

// List the names with a prefix: their numbers in byte order of name, as many as fit; the reply has the total.
pub fn lt_names_with_prefix(
    counters: &[u32],
    resources: &[u32],
    statements: &[u32],
    index: &[u32],
    text: &[u8],
    prefix: &[u8],
    numbers: &mut [u32],
    reply: &mut [u32],
) -> u32
    ensures { PrefixCall counters.now (lent resources.entry statements.entry index.entry text.entry)
        prefix.now numbers.old numbers.new reply.old (done result reply.new) }
{
    let Some(c) = counters_beside(counters, reply, NUMBER_REPLY_WORDS) else {
        return TOO_SHORT;
    };
    let tables = Tables {
        resources,
        statements,
        index,
        text,
    };
    let a = total_answer(prefix::names_with_prefix(c, tables, prefix, numbers));
    reply[0] = a.number;
    a.result
}
