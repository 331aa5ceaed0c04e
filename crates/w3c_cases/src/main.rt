// The W3C's tests of RDF 1.1 N-Triples, read line by line (paper 01, "Names", "Read a line" and the checklist's
// third item).
//
// Reads each file that an argument names, and prints a line for each line of it: the file's name, the line's number,
// then the three parts, `nothing`, or `refused 10` and the offset. Of a file with no lines it prints that line 1 is the
// `end`. A file that cannot be opened or read, or that is longer than the buffer, is told on standard error.
//
// The files are the W3C's, unchanged, with their licence, in `data`. The expected output is that of `expected.py`,
// which follows paper 01 and knows nothing of this library. `docs/W3C.md` compares it with the W3C's verdicts.
#![tactic(auto)]

use std::io::Read;
use std::rt::{Env, Files};
use store::{Refusal, refusal_number};
use streams::{Output, Outputs, print_decimal, write_all};

// Room for a file. The longest of the tests has 4,080 bytes.
const ROOM: usize = 8192;

// A part of a line that was read lies in the text.
fn print_part(rt: &impl Outputs, text: &[u8], part: ntriples::Span) {
    if let Some(bytes) = text.get(part.start..part.end) {
        write_all(rt, Output::Standard, b" ");
        write_all(rt, Output::Standard, bytes);
    }
}

// Each program of cases writes its own form of an answer: a crate for it would be longer.
fn print_answer(rt: &impl Outputs, text: &[u8], line: ntriples::Line) {
    match line {
        ntriples::Line::End => {
            write_all(rt, Output::Standard, b" end");
        }
        ntriples::Line::Nothing => {
            write_all(rt, Output::Standard, b" nothing");
        }
        ntriples::Line::Triple(s, p, o) => {
            print_part(rt, text, s);
            print_part(rt, text, p);
            print_part(rt, text, o);
        }
        ntriples::Line::Refused(k) => {
            write_all(rt, Output::Standard, b" refused ");
            print_decimal(
                rt,
                Output::Standard,
                refusal_number(Refusal::BadLine) as u64,
            );
            write_all(rt, Output::Standard, b" ");
            print_decimal(rt, Output::Standard, k as u64);
        }
    }
}

// Reads the line at `at`, number `n` of the file, and prints what it gives; the position after it.
fn report_line(rt: &impl Outputs, name: &[u8], n: usize, text: &[u8], at: usize) -> usize {
    let read = ntriples::read_line(text, at);
    let line = read.line;
    write_all(rt, Output::Standard, name);
    write_all(rt, Output::Standard, b" ");
    print_decimal(rt, Output::Standard, n as u64);
    print_answer(rt, text, line);
    write_all(rt, Output::Standard, b"\n");
    read.next
}

// Reads every line of a text. Before the text's end a line takes a byte or more, so there are no more lines than bytes, and one of an empty
// text.
fn report_lines(rt: &impl Outputs, name: &[u8], text: &[u8]) {
    let mut at = 0;
    for n in 1..text.len() + 2 {
        at = report_line(rt, name, n, text, at);
        if at >= text.len() {
            return;
        }
    }
}

// Reads an open file whole, and its lines. One read more tells the file's end from a failure and from a longer file.
fn report_open<S: Read>(rt: &impl Outputs, name: &[u8], source: &mut S) {
    let mut text = [0u8; ROOM];
    let got = streams::read_full(source, &mut text);
    let mut rest = [0u8; 1];
    match source.read(&mut rest) {
        Err(e) => streams::fail(rt, name, e),
        Ok(0) => report_lines(rt, name, &text[..got]),
        Ok(_) => {
            write_all(rt, Output::Error, name);
            write_all(rt, Output::Error, b": longer than the buffer\n");
        }
    }
}

// Reads the file that argument `i` names.
fn report_file<R: Outputs + Env + Files>(rt: &R, i: usize) {
    let mut path = [0u8; streams::ARGUMENT];
    match streams::argument(rt, i, &mut path) {
        Err(e) => streams::fail(rt, b"argument", e),
        Ok(length) => report_path(rt, &path[..length]),
    }
}

// Reads the file with this path.
fn report_path<R: Outputs + Files>(rt: &R, path: &[u8]) {
    match streams::open(rt, path) {
        Err(e) => streams::fail(rt, path, e),
        Ok(mut file) => report_open(rt, path, &mut file),
    }
}

fn main(rt: HostRuntime) {
    let count = streams::argument_count(&rt);
    for i in 1..count {
        report_file(&rt, i);
    }
}
