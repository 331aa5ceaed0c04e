// Refused lines and files that cannot be read: how many there were, and what is told of them.
ghost use Rattle.std.specs.Prelude.{◌≡◌, ℕ};
ghost use Rattle.streams.specs.Counts.{IsPrefixLen};
ghost use Rattle.store.specs.Values.{refusal_number};

use crate::output;
use crate::output::{append, append_decimal};
use crate::status::Status;
use line_fault::{Fault, Name, Part};
use std::io::Error;
use std::rt::Env;
use store::{Refusal, refusal_number};
use streams::{Output, Outputs};

// Of one file so many refused lines are told, and then their number.
const TOLD: u64 = 20;

// A file's name of at most 4,096 bytes, three numbers and a reason.
const REPORT_LINE: usize = 4352;

// What a line is refused with: a refusal, or any number that stands for one.
pub trait Numbered: Copy {
    ghost number_of: { Self → ℕ };

    fn number(self) -> u32
        ensures { result ≡ number_of self };
}

impl Numbered for Refusal {
    ghost number_of = { refusal_number };

    fn number(self) -> u32 {
        refusal_number(self)
    }
}

impl Numbered for u32 {
    ghost number_of = { λ n. n };

    fn number(self) -> u32 {
        self
    }
}

// The argument that names the file being read, none for standard input, and how many lines were read before it; how many of its lines were
// refused, and of all files'; whether one found no room, how many files could not be read, and whether all that was told was written.
#[derive(Clone, Copy)]
pub struct Report {
    pub file: Option<usize>,
    pub before: u64,
    pub refused: u64,
    pub missing: u64,
    pub full: bool,
    pub unread: u64,
    pub written: bool,
}

// Appends the name of a file, by the argument that names it.
fn append_file(rt: &impl Env, out: &mut [u8], at: usize, file: Option<usize>) -> usize
    ensures { IsPrefixLen result out.new }
{
    let Some(i) = file else {
        return append(out, at, b"standard input");
    };
    let mut name = [0u8; streams::ARGUMENT];
    let n = streams::argument_or_nothing(rt, i, &mut name);
    append(out, at, &name[..n])
}

// Appends a byte's number and words after it.
fn append_byte(out: &mut [u8], at: usize, b: u8, words: &[u8]) -> usize
    ensures { IsPrefixLen result out.new }
{
    let a = append(out, at, b"byte ");
    let d = append_decimal(out, a, b as u64);
    append(out, d, words)
}

// Appends the kind of a name.
fn append_kind(out: &mut [u8], at: usize, kind: Name) -> usize
    ensures { IsPrefixLen result out.new }
{
    match kind {
        Name::Iri => append(out, at, b"an IRI"),
        Name::Label => append(out, at, b"a label"),
        Name::Literal => append(out, at, b"a literal"),
    }
}

// Appends what is due.
fn append_due(out: &mut [u8], at: usize, part: Part) -> usize
    ensures { IsPrefixLen result out.new }
{
    let a = append(out, at, b"expected ");
    match part {
        Part::Subject => append(out, a, b"a subject"),
        Part::Predicate => append(out, a, b"a predicate"),
        Part::Object => append(out, a, b"an object"),
        Part::Dot => append(out, a, b"a dot"),
        Part::LineEnd => append(out, a, b"the line's end"),
    }
}

// Appends the reason of a fault at byte b.
fn append_fault(out: &mut [u8], at: usize, f: Fault, b: u8) -> usize
    ensures { IsPrefixLen result out.new }
{
    match f {
        Fault::Mark => append(out, at, b"a byte order mark"),
        Fault::NotAscii => append_byte(out, at, b, b" is not ASCII"),
        Fault::Stray => append_byte(out, at, b, b" may not stand here"),
        Fault::TooLong => append(out, at, b"over 255 bytes"),
        Fault::Escape => append(out, at, b"no such escape"),
        Fault::Due(part) => append_due(out, at, part),
        Fault::Ends(kind) => {
            let a = append(out, at, b"the line ends in ");
            append_kind(out, a, kind)
        }
        Fault::Within(kind) => {
            let a = append_byte(out, at, b, b" may not stand in ");
            append_kind(out, a, kind)
        }
    }
}

// Appends the column of offset k, and what stands between it and the reason.
fn append_column(out: &mut [u8], at: usize, k: usize) -> usize
    ensures { IsPrefixLen result out.new }
{
    let a = append_decimal(out, at, (k as u64).saturating_add(1));
    append(out, a, b": ")
}

// Appends column and reason of a line that was refused with e, without its ending: it finds no room, is over the limit, or cannot be read at
// offset k.
fn append_reason(
    out: &mut [u8],
    at: usize,
    e: impl Numbered,
    line: &[u8],
    k: usize,
    limit: usize,
) -> usize
    ensures { IsPrefixLen result out.new }
{
    if e.number() == refusal_number(Refusal::Full) {
        return append(out, at, b"1: no room for one more");
    }
    if line.len() > limit {
        let a = append_column(out, at, limit);
        return append(out, a, b"over 1024 bytes");
    }
    let a = append_column(out, at, k);
    append_fault(
        out,
        a,
        line_fault::fault_at(line, k),
        line.get(k).copied().unwrap_or(0),
    )
}

impl Report {
    // Before anything is read.
    pub fn fresh() -> Report {
        Report {
            file: None,
            before: 0,
            refused: 0,
            missing: 0,
            full: false,
            unread: 0,
            written: true,
        }
    }

    // Tells that line `number` of all was refused with e: file, line and column, and why.
    fn tell_line(
        self,
        rt: &(impl Outputs + Env),
        number: u64,
        e: impl Numbered,
        line: &[u8],
        k: usize,
        limit: usize,
    ) -> bool {
        let mut out = [0u8; REPORT_LINE];
        let a = append_file(rt, &mut out, 0, self.file);
        let b = append(&mut out, a, b":");
        let c = append_decimal(&mut out, b, number.wrapping_sub(self.before));
        let d = append(&mut out, c, b":");
        let f = append_reason(&mut out, d, e, line, k, limit);
        let g = append(&mut out, f, b"\n");
        output::put(rt, Output::Error, &out[..g])
    }

    // With line `number` of all, refused with e, without its ending: where it is no line, it is over the limit, or cannot be read at offset k.
    pub fn with_refused(
        self,
        rt: &(impl Outputs + Env),
        number: u64,
        e: impl Numbered,
        line: &[u8],
        k: usize,
        limit: usize,
    ) -> Report {
        let refused = self.refused.saturating_add(1);
        let written = if refused > TOLD {
            self.written
        } else {
            self.tell_line(rt, number, e, line, k, limit)
        };
        Report {
            refused,
            missing: self.missing.saturating_add(1),
            full: self.full || e.number() == refusal_number(Refusal::Full),
            written,
            ..self
        }
    }

    // With what was just written, or not.
    pub fn with_written(self, written: bool) -> Report {
        Report { written, ..self }
    }

    // With a file begun after so many lines, named by an argument, or standard input.
    pub fn with_file(self, file: Option<usize>, lines: u64) -> Report {
        Report {
            file,
            before: lines,
            refused: 0,
            ..self
        }
    }

    // With a file ended: where not all of its refused lines were told, their number is.
    pub fn with_end(self, rt: &(impl Outputs + Env)) -> Report {
        if !self.written || self.refused <= TOLD {
            return self;
        }
        let mut out = [0u8; REPORT_LINE];
        let a = append_file(rt, &mut out, 0, self.file);
        let b = append(&mut out, a, b": ");
        let c = append_decimal(&mut out, b, self.refused);
        let d = append(&mut out, c, b" lines refused\n");
        self.with_written(output::put(rt, Output::Error, &out[..d]))
    }

    // With something that could not be read, and why.
    pub fn with_unread(self, rt: &impl Outputs, name: &[u8], error: Error) -> Report {
        Report {
            unread: self.unread.saturating_add(1),
            written: output::cannot(rt, name, error),
            ..self
        }
    }

    // What a load comes to.
    pub fn status(self) -> Status {
        if self.unread != 0 || !self.written {
            Status::Failed
        } else if self.missing != 0 {
            Status::Refused
        } else {
            Status::Done
        }
    }
}

// Tells words and a number, and answers whether they were written.
pub fn tell(rt: &impl Outputs, words: &[u8], n: u64) -> bool {
    let mut out = [0u8; REPORT_LINE];
    let a = append(&mut out, 0, words);
    let b = append_decimal(&mut out, a, n);
    let c = append(&mut out, b, b"\n");
    output::put(rt, Output::Error, &out[..c])
}

// Tells what a file lacks that is about to be written, where lines were refused or files could not be read, and answers whether that was
// written.
pub fn tell_lacks(rt: &impl Outputs, missing: u64, unread: u64) -> bool {
    match (unread, missing) {
        (0, 0) => true,
        (0, _) => tell(rt, b"lines missing from the file: ", missing),
        (_, 0) => output::put(rt, Output::Error, b"not everything could be read\n"),
        _ => tell(
            rt,
            b"not everything could be read, lines missing from the file: ",
            missing,
        ),
    }
}
