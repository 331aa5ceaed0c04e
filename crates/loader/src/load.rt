// Every line of a source, one after another.
ghost use Rattle.table.specs.Lent.{held_mut, SameSlices};
ghost use Rattle.loader.specs.Lines.{LoadsLines};
ghost use Rattle.loader.specs.Steps.{Takes, ReadAt};

use crate::line::{Outcome, content, load_line};
use crate::told;
use ntriples::Line;
use report::tally::Report;
use std::rt::Env;
use store::Counters;
use streams::Outputs;
use table::lent::TablesMut;

// How far a load is: the store's counters, the lines that have ended, how many bytes of the line being read stand at the front of the
// buffer; whether it is quiet, as was asked for: then nothing is written to standard output; and what was told of refused lines.
#[derive(Clone, Copy)]
pub struct Load {
    pub counters: Counters,
    pub lines: u64,
    pub used: usize,
    pub quiet: bool,
    pub report: Report,
}

impl Load {
    // A load that has read nothing, over tables that hold anything.
    pub fn new(quiet: bool) -> Load {
        Load {
            counters: Counters::fresh(),
            lines: 0,
            used: 0,
            quiet,
            report: Report::fresh(),
        }
    }
}

// Takes a line that was read: loads it, reports it, and counts it.
fn take_line(
    rt: &(impl Outputs + Env),
    l: Load,
    tables: &mut TablesMut,
    source: &[u8],
    from: usize,
    line: Line,
    next: usize,
) -> Load
    requires { ReadAt source.now from line next }
    ensures same { SameSlices tables.new tables.old }
    ensures loads { Takes l.counters (held_mut tables.old) (held_mut tables.new)
        source.now from result.counters }
{
    let c = l.counters;
    let r = load_line(c, tables, source, from, line, next);
    let lines = l.lines.saturating_add(1);
    // Nothing is told of a blank line or a comment: then its bytes are not looked at again.
    let report = match r.outcome {
        Ok(Outcome::Nothing) => l.report,
        _ => {
            let bytes = content(source, from, next);
            told::with_line(rt, l.report, l.quiet, lines, r.outcome, bytes, line)
        }
    };
    Load {
        counters: r.counters,
        lines,
        report,
        ..l
    }
}

// Loads every line of the source, by one reader.
pub fn load_lines(rt: &(impl Outputs + Env), l: Load, tables: &mut TablesMut, source: &[u8]) -> Load
    ensures same { SameSlices tables.new tables.old }
    ensures loads { LoadsLines l.counters (held_mut tables.old) (held_mut tables.new)
        source.now result.counters }
{
    let mut m = l;
    let mut r = line_reader::reader(source);
    // The lines before `r` are loaded; `m` is how far the load is. A while: reading a line moves the reader on.
    while r.at < source.len() {
        let from = r.at;
        let line = line_reader::read_line(&mut r);
        m = take_line(rt, m, tables, source, from, line, r.at);
    }
    m
}
