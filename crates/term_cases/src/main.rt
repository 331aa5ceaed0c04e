// Runs the spellings of `stdin` (paper 01, "Names"), one a line: the case's name, a space, and the bytes to test,
// where `%` and two hexadecimal digits stand for one byte. It writes a line for each: the case's number and name, what
// `kind_of_name` answers (`kind` and its number, or `refused 2`), and the offset at which `scan_term` halts.
#![tactic(auto)]

ghost use Rattle.std.specs.Prelude.{◌≤◌};
ghost use Rattle.streams.specs.Counts.{IsPrefixLen};

use find_byte::find;
use store::{Refusal, refusal_number};
use streams::{Output, Outputs, print_decimal, write_all};
use term::NameKind;

fn main(rt: HostRuntime) {
    let mut text = [0u8; 65536];
    let n = streams::read_full(&mut rt.stdin(), &mut text);
    run(&rt, &text[..n]);
}

// Every line of the text.
fn run(rt: &impl Outputs, text: &[u8]) {
    for (i, line) in text.split_inclusive(|b| *b == b'\n').enumerate() {
        run_case(rt, i as u64 + 1, line.strip_suffix(b"\n").unwrap_or(line));
    }
}

// One line.
fn run_case(rt: &impl Outputs, number: u64, line: &[u8]) {
    let gap = find(line, 0, line.len(), b' ');
    print_decimal(rt, Output::Standard, number);
    write_all(rt, Output::Standard, b" ");
    write_all(rt, Output::Standard, &line[0..gap]);
    let mut name = [0u8; streams::ARGUMENT];
    if gap < line.len() {
        let n = decode(&line[gap + 1..], &mut name);
        answer(rt, &name[..n]);
    }
}

fn refused(rt: &impl Outputs) -> bool {
    write_all(rt, Output::Standard, b" refused ");
    print_decimal(
        rt,
        Output::Standard,
        refusal_number(Refusal::Malformed) as u64,
    )
}

fn answer(rt: &impl Outputs, name: &[u8]) {
    match term::kind_of_name(name) {
        Some(NameKind::Iri) => write_all(rt, Output::Standard, b" kind 1"),
        Some(NameKind::Blank) => write_all(rt, Output::Standard, b" kind 2"),
        Some(NameKind::Literal) => write_all(rt, Output::Standard, b" kind 3"),
        None => refused(rt),
    };
    let halt = term::scan_term(name, 0, name.len());
    write_all(rt, Output::Standard, b" at ");
    print_decimal(rt, Output::Standard, halt.at as u64);
    write_all(rt, Output::Standard, b"\n");
}

// The bytes that a spelling stands for, as many as there is room for.
fn decode(spelling: &[u8], out: &mut [u8]) -> usize
    ensures { IsPrefixLen result out.new }
{
    let mut bytes = spelling.iter().copied();
    for (n, place) in out.iter_mut().enumerate() {
        match bytes.next() {
            None => return n,
            Some(b'%') => {
                let high = hex(bytes.next().unwrap_or(0));
                let low = hex(bytes.next().unwrap_or(0));
                *place = high * 16 + low;
            }
            Some(b) => *place = b,
        }
    }
    out.len()
}

// The value of a hexadecimal digit.
fn hex(b: u8) -> u8
    ensures { result ≤ 15 }
{
    match b {
        b'0'..=b'9' => b - b'0',
        b'a'..=b'f' => b - b'a' + 10,
        _ => 0,
    }
}
