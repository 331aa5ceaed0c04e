// The lines that a load writes to standard output: one for each statement line, and the totals. Each is written at once, and every write is
// tested.
use crate::line::Outcome;
use report::output::{append, append_decimal, put};
use report::tally::Numbered;
use store::Counters;
use streams::{Output, Outputs};

// A line of output fits: at most two numbers of 20 digits and 24 other bytes.
const OUTPUT_LINE: usize = 64;

// Writes `NUMBER word N`; the word has a space on either side.
fn write_line(rt: &impl Outputs, number: u64, word: &[u8], n: u32) -> bool {
    let mut out = [0u8; OUTPUT_LINE];
    let a = append_decimal(&mut out, 0, number);
    let b = append(&mut out, a, word);
    let c = append_decimal(&mut out, b, n as u64);
    let d = append(&mut out, c, &[b'\n']);
    put(rt, Output::Standard, &out[..d])
}

// Writes what a line came to.
pub fn outcome(rt: &impl Outputs, number: u64, outcome: Result<Outcome, impl Numbered>) -> bool {
    match outcome {
        Ok(Outcome::Nothing) => true,
        Ok(Outcome::New(n)) => write_line(rt, number, b" new ", n.0),
        Ok(Outcome::Already(n)) => write_line(rt, number, b" already ", n.0),
        Ok(Outcome::Revived(n)) => write_line(rt, number, b" revived ", n.0),
        Err(e) => write_line(rt, number, b" refused ", e.number()),
    }
}

// Writes the totals, `resources R statements T`.
pub fn totals(rt: &impl Outputs, c: Counters) -> bool {
    let mut out = [0u8; OUTPUT_LINE];
    let a = append(&mut out, 0, b"resources ");
    let b = append_decimal(&mut out, a, c.resources as u64);
    let d = append(&mut out, b, b" statements ");
    let e = append_decimal(&mut out, d, c.statements as u64);
    let f = append(&mut out, e, &[b'\n']);
    put(rt, Output::Standard, &out[..f])
}
