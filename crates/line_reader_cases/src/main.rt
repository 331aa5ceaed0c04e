// Reads a text from standard input, line after line, by a reader of lines (paper 01, "Read a line" and "The right form for
// each place"). Prints a line for each: its number, the answer and the position after it, and at last the answer at the end.
//
// A line that is refused stands before others, so the output shows that a reader moves past it. The expected output is
// worked out by hand from paper 01.
#![tactic(auto)]

ghost use Rattle.std.specs.Prelude.{◌≡◌};
ghost use Rattle.line_reader_cases.specs.End.{is_end};

use store::{Refusal, refusal_number};
use streams::{Output, Outputs, print_decimal, write_all};

// Room for the text.
const ROOM: usize = 256;

fn print_span(rt: &impl Outputs, p: ntriples::Span) {
    write_all(rt, Output::Standard, b" ");
    print_decimal(rt, Output::Standard, p.start as u64);
    write_all(rt, Output::Standard, b"..");
    print_decimal(rt, Output::Standard, p.end as u64);
}

// Each program of cases writes its own form of an answer: a crate for it would be longer.
fn print_answer(rt: &impl Outputs, line: ntriples::Line) {
    match line {
        ntriples::Line::End => {
            write_all(rt, Output::Standard, b" end");
        }
        ntriples::Line::Nothing => {
            write_all(rt, Output::Standard, b" nothing");
        }
        ntriples::Line::Triple(s, p, o) => {
            write_all(rt, Output::Standard, b" triple");
            print_span(rt, s);
            print_span(rt, p);
            print_span(rt, o);
        }
        ntriples::Line::Refused(k) => {
            write_all(rt, Output::Standard, b" refused ");
            print_decimal(
                rt,
                Output::Standard,
                refusal_number(Refusal::BadLine) as u64,
            );
            write_all(rt, Output::Standard, b" ");
            print_decimal(rt, Output::Standard, k as u64);
        }
    }
}

// Prints what line n of the text gave, and where the reader stands after it. Answers whether the text has ended.
fn report_line(rt: &impl Outputs, n: u64, line: ntriples::Line, next: usize) -> bool
    ensures { result ≡ is_end line }
{
    print_decimal(rt, Output::Standard, n);
    print_answer(rt, line);
    write_all(rt, Output::Standard, b" next ");
    print_decimal(rt, Output::Standard, next as u64);
    write_all(rt, Output::Standard, b"\n");
    matches!(line, ntriples::Line::End)
}

// Reads every line of a text, and once more at its end, by one reader. A line takes a byte or more, so there are no more lines than bytes.
fn report_lines(rt: &impl Outputs, text: &[u8]) {
    let mut r = line_reader::reader(text);
    for n in 1..text.len() as u64 + 2 {
        let line = line_reader::read_line(&mut r);
        if report_line(rt, n, line, r.at) {
            return;
        }
    }
}

fn main(rt: HostRuntime) {
    let mut text = [0u8; ROOM];
    let got = streams::read_full(&mut rt.stdin(), &mut text);
    report_lines(&rt, &text[..got]);
}
