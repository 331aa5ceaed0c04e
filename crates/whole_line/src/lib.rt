// A line loaded whole or not at all: `load_whole` does what the loading program does with a line, but where that would be refused, it
// changes nothing. The loading program enters the names of a line one by one, and those entered before a refusal remain; here `room` tells
// beforehand whether all of them, and the statement, have room.
#![tactic(auto)]

ghost use Rattle.term.specs.Grammar.{name_limit};
ghost use Rattle.table.specs.Lent.{held_mut, SameSlices};
ghost use Rattle.ntriples.specs.Reader.{read_of};
ghost use Rattle.whole_line.specs.Whole.{LoadsWhole};

use loader::line::LineLoaded;
use store::{Counters, Refusal};
use table::lent::TablesMut;

mod room;

// Loads the first line of the source, of any length: all of it, or nothing where it is refused.
pub fn load_whole(c: Counters, tables: &mut TablesMut, source: &[u8]) -> LineLoaded
    ensures same { SameSlices tables.new tables.old }
    ensures loads { LoadsWhole c (held_mut tables.old) (held_mut tables.new)
        source.now (read_of name_limit source.now 0).line result }
{
    let read = ntriples::read_line(source, 0);
    let line = read.line;
    if !room::for_line(c, tables.read(), source, line) {
        return LineLoaded {
            counters: c,
            outcome: Err(Refusal::Full),
        };
    }
    loader::line::load_first(c, tables, source)
}
