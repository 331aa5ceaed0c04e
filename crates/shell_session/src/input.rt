// Standard input, line by line, up to its end, to `quit` or to a read or a write that failed.
ghost use Rattle.table.specs.Lent.{SameSlices};

use crate::commands::State;
use crate::{answer, commands};
use loader::block::keep_rest;
use ntriples::Span;
use report::status::Status;
use shell_line::part::bytes_of;
use std::io::Read;
use streams::Outputs;
use table::lent::TablesMut;

// Whether there is more to read: not once the input has ended; and not where a read failed, or the write of a prompt.
#[derive(Clone, Copy, PartialEq, Eq)]
enum Source {
    Open,
    Ended,
    Failed,
}

// How far the input is read. The line at hand, if one is found, stands in the buffer; what is read beyond it, from `at` up to `filled`. Once
// standard input has ended, what is left is the last line; where a read failed, or the write of a prompt, nothing is left.
#[derive(Clone, Copy)]
struct Input {
    line: Option<Span>,
    at: usize,
    filled: usize,
    source: Source,
}

// The input with bytes from the buffer's front up to `filled`.
fn filled_to(filled: usize, source: Source) -> Input {
    Input {
        line: None,
        at: 0,
        filled,
        source,
    }
}

// Where a line ends that begins at `from`: at its LF, or at the end of what is filled.
fn line_end(buffer: &[u8], from: usize, filled: usize) -> usize {
    let stop = filled.min(buffer.len());
    match buffer[from.min(stop)..stop]
        .iter()
        .position(|b| *b == b'\n')
    {
        Some(n) => from + n,
        None => from.max(stop),
    }
}

// Where the line ends whose LF stands at `end`: one CR before it is dropped.
fn without_cr(buffer: &[u8], from: usize, end: usize) -> usize {
    if end <= from {
        return end;
    }
    if end > buffer.len() {
        return end;
    }
    if buffer[end - 1] == b'\r' {
        return end - 1;
    }
    end
}

// Takes the line that begins at i.at, if it has ended.
fn take_line(i: &mut Input, buffer: &[u8]) {
    let start = i.at;
    let end = line_end(buffer, start, i.filled);
    if end < i.filled {
        i.line = Some(Span {
            start,
            end: without_cr(buffer, start, end),
        });
        i.at = end + 1;
    } else if i.source != Source::Open {
        i.line = Some(Span { start, end });
    }
}

// The input after a read or a write that failed: it has ended, and the line that was broken off is dropped.
fn broken() -> Input {
    filled_to(0, Source::Failed)
}

// Reads one block, behind what is left of the last one.
fn fill<R: Outputs, S: Read>(
    rt: &R,
    source: &mut S,
    i: Input,
    buffer: &mut [u8],
    terminal: bool,
) -> Input {
    let used = keep_rest(buffer, i.at, i.filled).min(buffer.len());
    if !answer::prompt(rt, terminal, used) {
        return broken();
    }
    match source.read(&mut buffer[used..]) {
        Err(e) => {
            streams::fail(rt, b"standard input", e);
            answer::end_prompt(rt, terminal);
            broken()
        }
        Ok(n) if n > 0 => filled_to(used + n, Source::Open),
        Ok(_) => {
            if answer::end_prompt(rt, terminal) {
                filled_to(used, Source::Ended)
            } else {
                broken()
            }
        }
    }
}

// Goes on to the next line. Nothing says that the input ends, and no run uses the turns up.
fn next_line<R: Outputs, S: Read>(
    rt: &R,
    source: &mut S,
    i: &mut Input,
    buffer: &mut [u8],
    terminal: bool,
) {
    i.line = None;
    // No line ends in the blocks read so far.
    for _ in 0..u64::MAX {
        take_line(i, buffer);
        if i.line.is_some() {
            break;
        }
        *i = fill(rt, source, *i, buffer, terminal);
    }
}

// A session: runs each line of the source, which is standard input, and answers the greatest status.
pub fn session<R: Outputs, S: Read>(
    rt: &R,
    source: &mut S,
    begun: State,
    terminal: bool,
    tables: &mut TablesMut,
    buffer: &mut [u8],
) -> Status
    ensures same { SameSlices tables.new tables.old }
{
    let mut s = begun;
    let mut i = filled_to(0, Source::Open);
    // The lines read so far are run, which left `s`.
    for _ in 0..u64::MAX {
        next_line(rt, source, &mut i, buffer, terminal);
        let at = i.line.unwrap_or(Span { start: 0, end: 0 });
        let line = bytes_of(buffer, at.start, at.end);
        s = commands::run_line(rt, s, tables, line);
        if i.source != Source::Open || s.over {
            break;
        }
    }
    if i.source == Source::Failed {
        Status::Failed
    } else {
        s.status
    }
}
