// The live statements as a file of N-Triples in canonical form, lines in rising byte order (02, note 1).
//
// One pass over the statements, live or not, tells damage and the file's length. Then the numbers of the live ones are put into the
// lent working words, sorted there by their lines, and the lines are written; at the end the words are 0. Time: the bytes of the names,
// and T log2 T comparisons of lines. Memory: the T words.
//
// Refusals, in the order tested: 1 a counter over its capacity; 9 a statement or a name that cannot be read; 11 output or working words
// too short.
//
// Below the operation the tables are three slices, as the order of lines has them: it reads no index.
#![tactic(auto)]

ghost use Rattle.std.specs.Prelude.{◌≡◌};
ghost use Rattle.lines.specs.Export.{export_of, written};
ghost use Rattle.table.specs.Lent.{held};

use store::{Counters, Refusal};
use table::lent::Tables;

mod measure;
mod print;

// Write the file. The reply is its length; a refusal writes nothing. What is lent beyond the file and the first T words keeps its values.
pub fn export_file(
    c: Counters,
    tables: Tables,
    out: &mut [u8],
    work: &mut [u32],
) -> Result<u32, Refusal>
    ensures { written out.new work.new result
        ≡ export_of c (held tables.entry) out.old work.old }
{
    if !table::fits(c, tables) {
        return Err(Refusal::Capacity);
    }
    let words = work.len();
    let t = c.statements as usize;
    let bytes = measure::measure(c, tables.resources, tables.statements, tables.text)?;
    if words < t {
        return Err(Refusal::ExportSpace);
    }
    print::print_file(
        tables.resources,
        tables.statements,
        tables.text,
        c.statements,
        bytes,
        out,
        work,
    )
}
