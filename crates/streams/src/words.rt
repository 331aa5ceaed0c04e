// The system's words for a call that failed, told on standard error.
ghost use Rattle.std.specs.Prelude.{◌≡◌, ◌≤◌, length, take};

use crate::output::{Output, Outputs, write_all};
use std::fmt;
use std::fmt::Write;
use std::io::Error;

// Room for the words and the error's number, which the library writes after them.
const ROOM: usize = 128;

// Words as they are written, without a heap; what finds no room is dropped.
#[derive(Clone, Copy)]
struct Words {
    bytes: [u8; ROOM],
    len: usize,
    ghost within: { len ≤ 128 },
}

impl Words {
    fn text(&self) -> &[u8] {
        &self.bytes[..self.len]
    }
}

impl Write for Words {
    fn write_str(&mut self, s: &str) -> fmt::Result {
        let n = s.len().min(ROOM - self.len);
        self.bytes[self.len..self.len + n].copy_from_slice(&s.as_bytes()[..n]);
        self.len += n;
        Ok(())
    }
}

// What stands before the error's number, ` (os error N)`, which ends the words: a beginning of theirs.
fn before_number(words: &[u8]) -> &[u8]
    ensures { result.now ≡ take (length result.now) words.now }
{
    match words.iter().rposition(|b| *b == b'(') {
        Some(n) => &words[..n.saturating_sub(1)],
        None => words,
    }
}

// Tells a line on standard error: what failed, a colon, and the system's words. Whether it could be written is not told.
pub fn fail(rt: &impl Outputs, what: &[u8], error: Error) {
    let mut words = Words {
        bytes: [0; ROOM],
        len: 0,
    };
    let _ = write!(words, "{error}");
    let text = match error.raw_os_error() {
        Some(_) => before_number(words.text()),
        None => words.text(),
    };
    write_all(rt, Output::Error, what);
    write_all(rt, Output::Error, b": ");
    write_all(rt, Output::Error, text);
    write_all(rt, Output::Error, b"\n");
}
