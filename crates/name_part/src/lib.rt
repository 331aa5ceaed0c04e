// Name of a number as the name's bytes, which are a part of the lent text (paper 01, "Name of a number"): thin over
// `table::name_span`, which tells where they are.
#![tactic(auto)]

ghost use Rattle.std.specs.Prelude.{◌≡◌};
ghost use Rattle.store.specs.Tables.{lent};
ghost use Rattle.store.specs.Reading.{name_span_of};
ghost use Rattle.name_part.specs.Part.{NameReply};

use store::{Counters, Refusal, ResourceId};
use table::lent::Tables;

// The bytes of the name of a number. Refusals: 1; 4 if the number is 0 or above R; 9 if the offset is at or past B, or
// no zero byte follows within 256 bytes and before B.
//
// The bytes are lent as long as the text is, and no longer bound to the other tables: while they are in use nothing can
// be written to the text, so an intern may follow only once they are no longer needed. So the tables are four slices: a
// struct of them would lend all four for as long.
#[tactic(auto, unfolding(store::specs::Reading::name_span_of))]
pub fn name<'t>(
    c: Counters,
    resources: &[u32],
    statements: &[u32],
    index: &[u32],
    text: &'t [u8],
    n: ResourceId,
) -> Result<&'t [u8], Refusal>
    ensures { NameReply text.now (name_span_of c
        (lent resources.entry statements.entry index.entry text.entry) n) result }
{
    let tables = Tables {
        resources,
        statements,
        index,
        text,
    };
    let span = table::name_span(c, tables, n)?;
    let from = span.start as usize;
    let end = from + span.size as usize;
    Ok(&text[from..end])
}
