// Refusals in words, and where a line cannot be read, written to an output. What tells a whole refusal answers the status.
ghost use Rattle.streams.specs.Counts.{IsPrefixLen};

use crate::status::told;
use report::output::{append, append_decimal, put};
use report::status::Status;
use store::Refusal;
use streams::{Output, Outputs};

// A line of the input, or what is written above it.
const LINE: usize = 1280;

// A refusal in words.
fn words(e: Refusal) -> &'static [u8] {
    match e {
        Refusal::Capacity => b"over capacity",
        Refusal::Malformed => b"no name",
        Refusal::Full => b"no room for one more",
        Refusal::UnknownNumber => b"unknown number",
        Refusal::KindNotPermitted => b"kind not permitted",
        Refusal::BadCursor => b"bad place",
        Refusal::NoBudget => b"no budget",
        Refusal::BadQuery => b"no question",
        Refusal::Damaged => b"damaged",
        Refusal::BadLine => b"cannot be read",
        Refusal::ExportSpace => b"no room for the file",
        Refusal::StaleCursor => b"before a reclaim",
        Refusal::ReclaimLimit => b"no more reclaims",
        // Nothing else is refused here.
        _ => b"refused",
    }
}

// Appends `refused N`.
fn append_number(out: &mut [u8], e: Refusal) -> usize
    ensures { IsPrefixLen result out.new }
{
    let a = append(out, 0, b"refused ");
    append_decimal(out, a, store::refusal_number(e) as u64)
}

// Appends the words of a refusal, and a LF.
fn append_words(out: &mut [u8], at: usize, e: Refusal) -> usize
    ensures { IsPrefixLen result out.new }
{
    let a = append(out, at, b": ");
    let b = append(out, a, words(e));
    append(out, b, b"\n")
}

// Writes a refusal.
pub fn refused(rt: &impl Outputs, to: Output, e: Refusal) -> Status {
    let mut out = [0u8; LINE];
    let a = append_number(&mut out, e);
    let b = append_words(&mut out, a, e);
    told(put(rt, to, &out[..b]), Status::Refused)
}

// A line that is too long.
pub fn too_long(rt: &impl Outputs, to: Output) -> Status {
    told(
        put(rt, to, b"refused 10: over 1024 bytes\n"),
        Status::Refused,
    )
}

// Writes the refusal of a line at an offset, and its column: one more.
fn heading(rt: &impl Outputs, to: Output, e: Refusal, offset: usize) -> bool {
    let mut out = [0u8; LINE];
    let a = append_number(&mut out, e);
    let b = append(&mut out, a, b" at column ");
    let d = append_decimal(&mut out, b, (offset as u64).wrapping_add(1));
    let f = append_words(&mut out, d, e);
    put(rt, to, &out[..f])
}

// A byte of the line as it is shown.
fn shown(b: u8) -> u8 {
    match b {
        b'\t' => b,
        32..=126 => b,
        _ => b'?',
    }
}

// A byte of the caret's line, under a byte of the line.
fn under(b: u8) -> u8 {
    if b == b'\t' { b } else { b' ' }
}

// Writes the line as it is shown.
fn copy_of(rt: &impl Outputs, to: Output, line: &[u8]) -> bool {
    let mut out = [0u8; LINE];
    for (o, b) in out.iter_mut().zip(line) {
        *o = shown(*b);
    }
    let end = append(&mut out, line.len(), b"\n");
    put(rt, to, &out[..end])
}

// Writes the caret under an offset of the line.
fn caret(rt: &impl Outputs, to: Output, line: &[u8], offset: usize) -> bool {
    let mut out = [0u8; LINE];
    let before = &line[..offset.min(line.len())];
    for (o, b) in out.iter_mut().zip(before) {
        *o = under(*b);
    }
    let end = append(&mut out, before.len(), b"^\n");
    put(rt, to, &out[..end])
}

// Writes the refusal of a line at an offset: the column, the line, a caret under it.
pub fn refused_at(rt: &impl Outputs, to: Output, line: &[u8], e: Refusal, offset: usize) -> Status {
    if !heading(rt, to, e, offset) {
        return Status::Failed;
    }
    if !copy_of(rt, to, line) {
        return Status::Failed;
    }
    told(caret(rt, to, line, offset), Status::Refused)
}
