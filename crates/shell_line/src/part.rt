// White, words, and where a part ends.
ghost use Rattle.std.specs.Prelude.{Ok, ◌+◌, ◌<◌, ◌≡◌, cond, not, length};
ghost use Rattle.std.proofs.Math.Seq.{slice};
ghost use Rattle.term.specs.Bytes.{eq_bytes, first_byte};
ghost use Rattle.ntriples.specs.Grammar.{white};
ghost use Rattle.shell_line.specs.Ends.{run_from, white_end, followed, name_end, word_end};

use ntriples::is_white;
use term::class::{is_label_first, run_end};

// The end of the white from `from` on.
pub fn white_end(line: &[u8], from: usize) -> usize
    ensures { result ≡ white_end line.now from }
{
    run_end(line, from, is_white)
}

// The end of the bytes from `from` on that are not white.
pub fn word_end(line: &[u8], from: usize) -> usize
    ensures { result ≡ run_from (λ b. not (white b)) line.now from }
{
    run_end(line, from, |b| !is_white(b))
}

// The bytes from `start` up to `end`, as far as the line has them.
pub fn bytes_of(line: &[u8], start: usize, end: usize) -> &[u8]
    ensures { result.now ≡ slice start end line.now }
{
    let stop = end.min(line.len());
    let from = start.min(stop);
    &line[from..stop]
}

// Whether two byte strings are equal. A function beside `==`: its clause has the word of the definitions that callers meet.
pub fn same(a: &[u8], b: &[u8]) -> bool
    ensures { result ≡ eq_bytes a.now b.now }
{
    a == b
}

// The end of the letters, digits and `_` from `from` on.
fn variable_end(line: &[u8], from: usize) -> usize
    ensures { result ≡ run_from first_byte line.now from }
{
    run_end(line, from, is_label_first)
}

// The end of a variable's word, which begins at `from`, after the `?`; where any resource is meant, there is none.
fn variable(line: &[u8], from: usize, any: bool) -> Result<usize, usize>
    ensures { result ≡ cond any (Ok from) (word_end line.now from) }
{
    if any {
        return Ok(from);
    }
    let end = variable_end(line, from);
    if end == from {
        return Err(end);
    }
    Ok(end)
}

// The end of the name that begins at `a`, or the first byte that continues none: at most byte 256 of it. To the line's end, where `ntriples`
// reads a term to a dot.
fn name(line: &[u8], a: usize) -> Result<usize, usize>
    ensures { result ≡ name_end line.now a }
{
    let h = term::scan_term(line, a, line.len());
    let q = h.state;
    let i = h.at;
    if i - a > term::NAME_LIMIT {
        return Err(a + term::NAME_LIMIT);
    }
    if term::whole(q) {
        return Ok(i);
    }
    Err(i)
}

// A part that has ended at `end` is followed by white or by the line's end.
fn followed(line: &[u8], end: usize) -> Result<usize, usize>
    ensures { result ≡ followed line.now (Ok end) }
{
    if end < line.len() {
        if !is_white(line[end]) {
            return Err(end);
        }
    }
    Ok(end)
}

// The end of the dot at `a`.
pub fn dot_end(line: &[u8], a: usize) -> Result<usize, usize>
    requires { a < length line.now }
    ensures { result ≡ followed line.now (Ok (a + 1)) }
{
    followed(line, a + 1)
}

// The end of the name that begins at `a`, with white or the line's end after it.
pub fn name_end(line: &[u8], a: usize) -> Result<usize, usize>
    ensures { result ≡ followed line.now (name_end line.now a) }
{
    followed(line, name(line, a)?)
}

// The end of the variable at `a`; `any`: of a lone `?`.
pub fn variable_part_end(line: &[u8], a: usize, any: bool) -> Result<usize, usize>
    requires { a < length line.now }
    ensures { result ≡ followed line.now (cond any (Ok (a + 1)) (word_end line.now (a + 1))) }
{
    followed(line, variable(line, a + 1, any)?)
}
