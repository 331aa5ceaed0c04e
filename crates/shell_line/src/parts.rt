// The parts of a question or of a list, read from left to right up to the first fault.
ghost use Rattle.std.specs.Prelude.{◌<◌, ◌≡◌, cond, length, get_or};
ghost use Rattle.std.proofs.Math.Seq.{slice};
ghost use Rattle.shell_line.specs.Questions.{Reads, Tells, TellsPart, TellsForm, Adds, Numbers, part_bytes, no_parts, unreadable_at, no_question_at, reads_on};
ghost use Rattle.shell_line.specs.Questions.{dot_due, dot_at, asked_at, name_at, variable_read, part_at, step_of, end_of, question, list};

use crate::part;
use graph::{FIRST_VARIABLE, MAX_PATTERNS, VARIABLES};
use ntriples::Span;
use store::Refusal;

// As many parts as a question may have.
pub const MAX_PARTS: usize = 3 * MAX_PATTERNS;

// What is read: a question, whose variables have names, or the pattern of a list, where a lone `?` stands for any.
// No enum of the two: `LengthIsEnough`, `FaultsInside` and `VariablesNumbered` (`specs/Claims`) hold of a form with any number of patterns.
#[derive(Clone, Copy)]
pub struct Form {
    pub any: bool,
    pub patterns: usize,
}

// How far the reading is: where to read on; the parts read, three a pattern; whether a dot stands after the last one; the variables so far,
// each with the part where it first stands; for each part its word, 0 where it is a name or any. Each array has its count beside it, with no
// heap; the words stand by themselves, since a query takes them as a slice.
#[derive(Clone, Copy)]
pub struct Parts {
    pub at: usize,
    pub count: usize,
    pub dotted: bool,
    pub parts: [Span; MAX_PARTS],
    pub variables: usize,
    pub first: [usize; VARIABLES],
    pub words: [u32; MAX_PARTS],
}

// The first fault: why a line is refused, and the offset of the byte.
#[derive(Clone, Copy)]
pub struct Fault {
    pub refusal: Refusal,
    pub offset: usize,
}

pub fn question() -> Form
    ensures { result ≡ question }
{
    Form {
        any: false,
        patterns: MAX_PATTERNS,
    }
}

pub fn list() -> Form
    ensures { result ≡ list }
{
    Form {
        any: true,
        patterns: 1,
    }
}

// Nothing read yet.
fn none(at: usize) -> Parts
    ensures { result ≡ no_parts at }
{
    Parts {
        at,
        count: 0,
        dotted: false,
        parts: [Span { start: 0, end: 0 }; MAX_PARTS],
        variables: 0,
        first: [0; VARIABLES],
        words: [0; MAX_PARTS],
    }
}

// The line cannot be read at this offset. This fault and the next stand by the names of their definitions: one function
// of a refusal would be no shorter.
fn unreadable(offset: usize) -> Fault
    ensures { result ≡ unreadable_at offset }
{
    Fault {
        refusal: Refusal::BadLine,
        offset,
    }
}

// The line is no question, from this offset on.
fn no_question(offset: usize) -> Fault
    ensures { result ≡ no_question_at offset }
{
    Fault {
        refusal: Refusal::BadQuery,
        offset,
    }
}

// Whether a dot is due: three parts of a pattern are read, and no dot after them.
fn dot_due(p: Parts) -> bool
    ensures { result ≡ dot_due p.count p.dotted }
{
    if p.dotted {
        return false;
    }
    if p.count == 0 {
        return false;
    }
    p.count % 3 == 0
}

// Reads the dot at p.at. This, and `add` to `step`, read on in p: an answer of 500 bytes would be copied at each call.
fn read_dot(line: &[u8], p: &mut Parts) -> Result<(), Fault>
    requires { p.now.at < length line.now }
    ensures { Tells line.now p.old (reads_on p.new result) (dot_at line.now) }
{
    let at = p.at;
    if !dot_due(*p) {
        return Err(unreadable(at));
    }
    match part::dot_end(line, at) {
        Err(k) => Err(unreadable(k)),
        Ok(end) => {
            p.dotted = true;
            p.at = part::white_end(line, end);
            Ok(())
        }
    }
}

// The part with the given number, its bytes.
pub fn part_of(line: &[u8], p: Parts, i: usize) -> &[u8]
    ensures { result.now ≡ part_bytes line.now p i }
{
    if i >= MAX_PARTS {
        return &line[..0];
    }
    let s = p.parts[i];
    part::bytes_of(line, s.start, s.end)
}

// The number of the variable that stands from `at` up to `end`: that of an equal one, or the number of variables so far.
fn variable_number(line: &[u8], p: Parts, at: usize, end: usize) -> usize
    ensures { Numbers line.now p (slice at end line.now) result }
{
    let known = p.variables.min(VARIABLES);
    // The variables before v have other names.
    for v in 0..known {
        if part::same(part_of(line, p, p.first[v]), part::bytes_of(line, at, end)) {
            return v;
        }
    }
    known
}

// A part more, from p.at up to `end`, with its word.
fn add(line: &[u8], p: &mut Parts, end: usize, word: u32) -> Result<(), Fault>
    ensures { Adds line.now p.old (reads_on p.new result) end word }
{
    let i = p.count;
    if i >= MAX_PARTS {
        return Err(no_question(p.at));
    }
    p.parts[i] = Span { start: p.at, end };
    p.words[i] = word;
    p.count = i + 1;
    p.dotted = false;
    p.at = part::white_end(line, end);
    Ok(())
}

// A variable more, from p.at up to `end`.
fn add_variable(line: &[u8], p: &mut Parts, end: usize) -> Result<(), Fault>
    ensures { TellsPart line.now p.old (reads_on p.new result) (λ s. variable_read line.now s end) }
{
    let at = p.at;
    let i = p.count;
    let known = p.variables;
    let v = variable_number(line, *p, at, end);
    if v >= VARIABLES {
        return Err(no_question(at));
    }
    add(line, p, end, FIRST_VARIABLE + v as u32)?;
    if v == known {
        p.first[v] = i;
        p.variables = v + 1;
    }
    Ok(())
}

// Reads the variable at p.at, or a lone `?`.
fn read_variable(line: &[u8], p: &mut Parts, any: bool) -> Result<(), Fault>
    requires { p.now.at < length line.now }
    ensures { TellsPart line.now p.old (reads_on p.new result) (asked_at any line.now) }
{
    match part::variable_part_end(line, p.at, any) {
        Err(k) => Err(unreadable(k)),
        Ok(end) => {
            if any {
                return add(line, p, end, 0);
            }
            add_variable(line, p, end)
        }
    }
}

// Reads the name at p.at.
fn read_name(line: &[u8], p: &mut Parts) -> Result<(), Fault>
    ensures { TellsPart line.now p.old (reads_on p.new result) (name_at line.now) }
{
    match part::name_end(line, p.at) {
        Err(k) => Err(unreadable(k)),
        Ok(end) => add(line, p, end, 0),
    }
}

// The fault of a part after the last pattern: a list cannot be read there, and a question has too many patterns.
fn too_many(form: Form, offset: usize) -> Fault
    ensures { result ≡ cond form.any (unreadable_at offset) (no_question_at offset) }
{
    if form.any {
        unreadable(offset)
    } else {
        no_question(offset)
    }
}

// Reads the part at p.at, whose first byte is b.
fn read_part(line: &[u8], p: &mut Parts, form: Form, b: u8) -> Result<(), Fault>
    requires { (p.now.at < length line.now) × (b ≡ get_or line.now p.now.at 0) }
    ensures { TellsForm form line.now p.old (reads_on p.new result) (part_at form line.now) }
{
    let at = p.at;
    if dot_due(*p) {
        return Err(unreadable(at));
    }
    if p.count / 3 >= form.patterns {
        return Err(too_many(form, at));
    }
    if b == b'?' {
        return read_variable(line, p, form.any);
    }
    read_name(line, p)
}

// Reads what stands at p.at, a part or a dot.
fn step(line: &[u8], p: &mut Parts, form: Form) -> Result<(), Fault>
    ensures { TellsForm form line.now p.old (reads_on p.new result) (step_of form line.now) }
{
    let at = p.at;
    if at >= line.len() {
        return Ok(());
    }
    let b = line[at];
    if b == b'.' {
        return read_dot(line, p);
    }
    read_part(line, p, form, b)
}

// The line has ended: within a pattern, or before the first, it cannot be read there.
fn finish(line: &[u8], p: Parts) -> Result<Parts, Fault>
    ensures { Tells line.now p result (end_of line.now) }
{
    if p.count == 0 {
        return Err(unreadable(line.len()));
    }
    if p.count % 3 != 0 {
        return Err(unreadable(line.len()));
    }
    Ok(p)
}

// Reads the parts from `from` on.
pub fn read_parts(line: &[u8], from: usize, form: Form) -> Result<Parts, Fault>
    ensures { Reads form line.now from result }
{
    let mut p = none(part::white_end(line, from));
    // The parts before p.at are read. Each has a byte or more, so that the turns do not run out.
    for _ in 0..line.len() {
        if p.at >= line.len() {
            return finish(line, p);
        }
        step(line, &mut p, form)?;
    }
    finish(line, p)
}
