// The dictionary: names in the text, found through an index of their numbers in rising byte order.
//
// A name is found by halving the index, comparing in the text itself; nothing is copied. Each name costs at most 16
// comparisons, of at most 256 bytes each. A new name takes the next resource record, the text from B on, and its place
// in the index, whose tail moves up. A name is searched and stored without the string ending.
//
// Refusals, in the order tested: 1 a counter over its capacity; 2 a name that is not well formed or over 255 bytes, as
// spelled; 9 a word met on the way that no sound store has; 3 no room for one name more.
#![tactic(auto)]

ghost use Rattle.store.specs.Tables.{tables};
ghost use Rattle.store.specs.Dictionary.{FindAnswer, InternAnswer};
ghost use Rattle.table.specs.Lent.{held};

use store::{Counters, Interned, Lookup, Refusal, ResourceId};
use table::fits;
use table::lent::Tables;
use term::{kind_of_name, name_kind};

mod extend;
pub mod search;

// Find a name: its number, or absent; and where in the index it stands or would stand, from 0.
pub fn find(c: Counters, tables: Tables, name: &[u8]) -> Result<Lookup, Refusal>
    ensures { FindAnswer c (held tables.entry) name.now result }
{
    if !fits(c, tables) {
        return Err(Refusal::Capacity);
    }
    if kind_of_name(name).is_none() {
        return Err(Refusal::Malformed);
    }
    let short = term::canonical(name);
    search::search(c, tables, short)
}

// Enter a name: its number, old or new, and the counters from now on. A new name takes the place in the index that find
// answers. A refusal writes nothing. The statements are only read, so that the tables are four slices.
pub fn intern(
    c: Counters,
    resources: &mut [u32],
    statements: &[u32],
    index: &mut [u32],
    text: &mut [u8],
    name: &[u8],
) -> Result<Interned, Refusal>
    ensures { InternAnswer c (tables resources.old statements.now index.old text.old)
        (tables resources.new statements.now index.new text.new) name.now result }
{
    let tables = Tables {
        resources,
        statements,
        index,
        text,
    };
    if !fits(c, tables) {
        return Err(Refusal::Capacity);
    }
    // The kind as its record holds it: a number, 0 where the name is malformed.
    let kind = name_kind(name);
    if kind == 0 {
        return Err(Refusal::Malformed);
    }
    let short = term::canonical(name);
    match search::search(c, tables, short)? {
        Lookup::Number(number, _) => {
            let counters = c;
            Ok(Interned { number, counters })
        }
        Lookup::Absent(at) => {
            let grown = extend::one_name_more(c, short);
            if !fits(grown, tables) {
                return Err(Refusal::Full);
            }
            extend::append(c, resources, index, text, short, at, kind);
            Ok(Interned {
                number: ResourceId(grown.resources),
                counters: grown,
            })
        }
    }
}
