// What is told of a line that was read and loaded.
use crate::line::{LINE_LIMIT, Outcome};
use crate::output;
use ntriples::Line;
use report::tally::{Numbered, Report};
use std::rt::Env;
use streams::Outputs;

// The offset at which a line cannot be read.
fn offset_of(line: Line) -> usize {
    match line {
        Line::Refused(k) => k,
        _ => 0,
    }
}

// With line `number`, which is `content` without its ending, was read as `line` and came to `outcome`: written to standard output, unless
// the load is quiet, and told where it is refused; the number 0 refuses nothing. Nothing is told once a write has failed.
pub fn with_line(
    rt: &(impl Outputs + Env),
    t: Report,
    quiet: bool,
    number: u64,
    outcome: Result<Outcome, impl Numbered>,
    content: &[u8],
    line: Line,
) -> Report {
    if !t.written {
        return t;
    }
    let u = if quiet {
        t
    } else {
        t.with_written(output::outcome(rt, number, outcome))
    };
    match outcome {
        Err(e) if u.written && e.number() != 0 => u.with_refused(
            rt,
            number,
            e,
            content,
            offset_of(line),
            LINE_LIMIT,
        ),
        _ => u,
    }
}
