// Reads a table of cases from standard input, a line each: a name, a position, and a text in which `\n`, `\r`, `\\` and
// `\xNN` stand for a byte and `\{N}` for N letters a. Reads the text's line at the position, and prints one line a
// case: its number, its name, the answer and the position after.
//
// The input and the expected output are those of `reference.py`, which follows paper 01 and knows nothing of this
// library; the answers that docs/DECISIONS.md gives as examples are written out there by hand.
#![tactic(auto)]

ghost use Rattle.std.specs.Prelude.{◌≤◌, ◌<◌, ◌≡◌, length};

use find_byte::find;
use store::{Refusal, refusal_number};
use streams::{Output, Outputs, print_decimal, write_all};
use term::class::byte_at;

// Room for the table, and for the text of one case.
const ROOM: usize = 8192;

const LINE_ROOM: usize = 600;

// A number, and the position after it.
#[derive(Clone, Copy)]
struct Number {
    value: usize,
    next: usize,
}

// A byte `count` times, and the position in the table after what stands for it.
#[derive(Clone, Copy)]
struct Run {
    byte: u8,
    count: usize,
    next: usize,
}

// How many bytes of a text were laid out, and the position in the table after them.
#[derive(Clone, Copy)]
struct Laid {
    len: usize,
    next: usize,
}

fn print_number(rt: &impl Outputs, n: usize) {
    print_decimal(rt, Output::Standard, n as u64);
}

fn print_span(rt: &impl Outputs, p: ntriples::Span) {
    write_all(rt, Output::Standard, b" ");
    print_number(rt, p.start);
    write_all(rt, Output::Standard, b"..");
    print_number(rt, p.end);
}

// Each program of cases writes its own form of an answer: a crate for it would be longer.
fn print_answer(rt: &impl Outputs, line: ntriples::Line) {
    match line {
        ntriples::Line::End => {
            write_all(rt, Output::Standard, b"end");
        }
        ntriples::Line::Nothing => {
            write_all(rt, Output::Standard, b"nothing");
        }
        ntriples::Line::Triple(s, p, o) => {
            write_all(rt, Output::Standard, b"triple");
            print_span(rt, s);
            print_span(rt, p);
            print_span(rt, o);
        }
        ntriples::Line::Refused(k) => {
            write_all(rt, Output::Standard, b"refused ");
            print_decimal(
                rt,
                Output::Standard,
                refusal_number(Refusal::BadLine) as u64,
            );
            write_all(rt, Output::Standard, b" ");
            print_number(rt, k);
        }
    }
}

// The position after `i`, at most the table's end.
fn past(table: &[u8], i: usize) -> usize
    requires { i ≤ length table.now }
    ensures { (i ≤ result) × (result ≤ length table.now) }
{
    if i < table.len() {
        return i + 1;
    }
    i
}

// The digit that `b` is; a to f are 10 to 15, any other byte is 16. No Option: in a byte's second place the 16 counts on.
fn digit(b: u8) -> usize
    ensures { result ≤ 16 }
{
    match b {
        b'0'..=b'9' => (b - b'0') as usize,
        b'a'..=b'f' => (b - b'a') as usize + 10,
        _ => 16,
    }
}

// The decimal number from `from` on, at most four digits of it.
fn decimal(table: &[u8], from: usize) -> Number
    requires { from ≤ length table.now }
    ensures { (result.value ≤ 9999) × (from ≤ result.next) × (result.next ≤ length table.now) }
{
    let mut value = 0;
    for (i, b) in table[from..].iter().enumerate() {
        let d = digit(*b);
        if d >= 10 || value >= 1000 {
            let next = from + i;
            return Number { value, next };
        }
        value = value * 10 + d;
    }
    let next = table.len();
    Number { value, next }
}

// The byte that two hexadecimal digits from `from` on spell.
fn hexadecimal(table: &[u8], from: usize) -> Run
    requires { from ≤ length table.now }
    ensures { (from ≤ result.next) × (result.next ≤ length table.now) }
{
    let second = past(table, from);
    let next = past(table, second);
    let v = digit(byte_at(table, from)) * 16 + digit(byte_at(table, second));
    if v > 255 {
        return Run {
            byte: 0,
            count: 1,
            next: next,
        };
    }
    Run {
        byte: v as u8,
        count: 1,
        next: next,
    }
}

// The letters a whose number stands from `from` on, with the `}` after it.
fn repeated(table: &[u8], from: usize) -> Run
    requires { from ≤ length table.now }
    ensures { (from ≤ result.next) × (result.next ≤ length table.now) }
{
    let n = decimal(table, from);
    let brace = n.next;
    Run {
        byte: b'a',
        count: n.value,
        next: past(table, brace),
    }
}

// What `\` and the bytes from `from` on stand for.
fn escape(table: &[u8], from: usize) -> Run
    requires { from ≤ length table.now }
    ensures { (from ≤ result.next) × (result.next ≤ length table.now) }
{
    let next = past(table, from);
    match byte_at(table, from) {
        b'n' => Run {
            byte: b'\n',
            count: 1,
            next: next,
        },
        b'r' => Run {
            byte: b'\r',
            count: 1,
            next: next,
        },
        b'x' => hexadecimal(table, next),
        b'{' => repeated(table, next),
        _ => Run {
            byte: b'\\',
            count: 1,
            next: next,
        },
    }
}

// What the bytes from `from` on stand for, up to one byte or one escape.
fn piece(table: &[u8], from: usize) -> Run
    requires { from < length table.now }
    ensures { (from < result.next) × (result.next ≤ length table.now) }
{
    let b = table[from];
    if b == b'\\' {
        return escape(table, from + 1);
    }
    Run {
        byte: b,
        count: 1,
        next: from + 1,
    }
}

// Lays `b` out `count` times from `from` on, as far as there is room; the position after.
fn fill(text: &mut [u8], from: usize, count: usize, b: u8) -> usize
    requires { from ≤ length text.old }
    ensures { (result ≤ length text.new) × (length text.new ≡ length text.old) }
{
    let end = from.saturating_add(count).min(text.len());
    text[from..end].fill(b);
    end
}

// Lays out the text that stands from `from` on up to the LF.
fn lay(table: &[u8], from: usize, text: &mut [u8]) -> Laid
    requires { from ≤ length table.now }
    ensures from_le_next { (from ≤ result.next) × (result.next ≤ length table.now) × (result.len ≤ length text.new) }
    ensures text_len_unchanged { length text.new ≡ length text.old }
{
    // The first `n` bytes of the text are what stands in the table from `from` up to `i`. A while: a piece takes as many bytes of the
    // table as its escape has, so no iterator over them is plainer.
    let mut i = from;
    let mut n = 0;
    while i < table.len() {
        if table[i] == b'\n' {
            return Laid { len: n, next: i };
        }
        let p = piece(table, i);
        n = fill(text, n, p.count, p.byte);
        i = p.next;
    }
    Laid { len: n, next: i }
}

// Prints the line of the case number `n`.
fn report(rt: &impl Outputs, n: usize, name: &[u8], read: ntriples::LineRead) {
    print_number(rt, n);
    write_all(rt, Output::Standard, b" ");
    write_all(rt, Output::Standard, name);
    write_all(rt, Output::Standard, b" ");
    let line = read.line;
    print_answer(rt, line);
    write_all(rt, Output::Standard, b" next ");
    print_number(rt, read.next);
    write_all(rt, Output::Standard, b"\n");
}

// Runs the case number `n`, which begins at `from`; the position after it.
fn case(rt: &impl Outputs, n: usize, table: &[u8], from: usize, text: &mut [u8]) -> usize
    requires { from < length table.now }
    ensures { result ≤ length table.now }
{
    let space = find(table, from, table.len(), b' ');
    let at = decimal(table, past(table, space));
    let blank = at.next;
    let laid = lay(table, past(table, blank), text);
    let end = laid.next;
    let len = laid.len;
    let read = ntriples::read_line(&text[0..len], at.value);
    report(rt, n, &table[from..space], read);
    past(table, end)
}

fn main(rt: HostRuntime) {
    let mut table = [0; ROOM];
    let mut text = [0; LINE_ROOM];
    let got = streams::read_full(&mut rt.stdin(), &mut table);
    // The cases before `i` are run. Each takes a byte or more, so there are no more cases than bytes.
    let mut i = 0;
    for n in 1..got + 1 {
        if i >= got {
            return;
        }
        i = case(&rt, n, &table[..got], i, &mut text);
    }
}
