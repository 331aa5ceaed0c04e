// What fills the buffer: its whole lines are loaded, and the rest is kept for the next block.
ghost use Rattle.std.specs.Prelude.{◌≤◌, length};
ghost use Rattle.table.specs.Lent.{SameSlices};

use crate::line::LINE_LIMIT;
use crate::load;
use crate::load::Load;
use std::rt::Env;
use streams::Outputs;
use table::lent::TablesMut;

// Of a line that has not ended, at most so many bytes are kept: with a CR among them and a LF after them, it is over the limit.
const KEPT: usize = LINE_LIMIT + 2;

// Where the whole lines among the buffer's first bytes end: after the last LF.
fn whole_lines(buffer: &[u8], filled: usize) -> usize
    ensures { result ≤ length buffer.now }
{
    let filled = filled.min(buffer.len());
    match buffer[..filled].iter().rposition(|b| *b == b'\n') {
        Some(last) => last + 1,
        None => 0,
    }
}

// Moves what stands from `from` up to `filled`, at most `KEPT` bytes, to the buffer's front, and answers how many there are.
pub fn keep_rest(buffer: &mut [u8], from: usize, filled: usize) -> usize {
    let stop = filled.min(buffer.len());
    let start = from.min(stop);
    let n = (stop - start).min(KEPT);
    buffer.copy_within(start..start + n, 0);
    n
}

// Takes what fills the buffer: loads the lines that have ended, and keeps the rest.
pub fn load_block(
    rt: &(impl Outputs + Env),
    l: Load,
    tables: &mut TablesMut,
    buffer: &mut [u8],
    filled: usize,
) -> Load
    ensures same { SameSlices tables.new tables.old }
{
    let end = whole_lines(buffer, filled);
    let m = load::load_lines(rt, l, tables, &buffer[0..end]);
    Load {
        used: keep_rest(buffer, end, filled),
        ..m
    }
}

// The input ends: a last line without its LF is loaded.
pub fn finish(rt: &(impl Outputs + Env), l: Load, tables: &mut TablesMut, buffer: &mut [u8]) -> Load
    ensures same { SameSlices tables.new tables.old }
{
    let end = l.used.min(buffer.len());
    let m = load::load_lines(rt, l, tables, &buffer[0..end]);
    Load { used: 0, ..m }
}
