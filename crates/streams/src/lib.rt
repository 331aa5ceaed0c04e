// What the programs hear from the system and say to it: bytes to standard output and standard error, blocks of a file or of standard input,
// arguments as they are given, and the system's words for a call that failed.
//
// Everything here works in memory that is lent, and takes the runtime by the bounds that it needs. Bytes need not be text, but for the name
// of a file, which the library opens by text alone. No function has a `requires`. Which bytes reach the system or come from it is in no
// contract; lengths are.
#![tactic(auto)]

ghost use Rattle.std.specs.Prelude.{◌≡◌, length, IfOk};
ghost use Rattle.streams.specs.Counts.{IsPrefixLen};

pub mod number;
pub mod output;
#[cfg(test)]
mod tests;
pub mod words;

pub use number::decimal;
pub use output::{Output, Outputs, Terminal, print_decimal, write_all};
use std::env::FillError;
use std::io::{Error, Read};
use std::rt::{Env, Files};
use std::{fs, io, str};
pub use words::fail;

// The errors of an argument that is longer than its buffer, of one that is not there, and of a file's name that is no text, by the system's
// numbers.
const TOO_LONG: i32 = 36;

const MISSING: i32 = 22;

const NO_TEXT: i32 = 84;

// Room for an argument or a file's name.
pub const ARGUMENT: usize = 4096;

// What `docs/PROGRAMS.md` promises.
const _: () = prove!(ARGUMENT == 4096);

// So many times x. The length is told by a contract: a long array that is written out would be counted item by item.
pub fn filled<T: Copy, const N: usize>(x: T) -> [T; N]
    ensures { N ≡ length result }
{
    [x; N]
}

// How many arguments the program was started with, its own name among them.
pub fn argument_count(rt: &impl Env) -> usize {
    let mut first = [0u8; 1];
    for i in 0..usize::MAX {
        if let Err(FillError::NotPresent) = rt.arg(i, &mut first) {
            return i;
        }
    }
    usize::MAX
}

// Puts argument i at the front of a buffer, and answers its length; an error where it is missing or longer than the buffer.
pub fn argument(rt: &impl Env, i: usize, out: &mut [u8]) -> io::Result<usize>
    ensures { IfOk result (λ n. IsPrefixLen n out.new) }
{
    match rt.arg(i, out) {
        Ok(n) => Ok(n),
        Err(FillError::TooLong) => Err(Error::from_raw_os_error(TOO_LONG)),
        Err(FillError::NotPresent) => Err(Error::from_raw_os_error(MISSING)),
    }
}

// Likewise, and 0 where there is an error, for a caller to whom that is as an empty argument.
pub fn argument_or_nothing(rt: &impl Env, i: usize, out: &mut [u8]) -> usize
    ensures { IsPrefixLen result out.new }
{
    argument(rt, i, out).unwrap_or(0)
}

// Opens a file to be read. It is closed where it is dropped.
pub fn open<R: Files>(rt: &R, path: &[u8]) -> io::Result<R::File> {
    match str::from_utf8(path) {
        Ok(name) => fs::open(rt, name),
        Err(_) => Err(Error::from_raw_os_error(NO_TEXT)),
    }
}

// Reads until the buffer is full, the source ends or a read fails, and answers how many bytes stand at the buffer's front. Into no room
// nothing is read.
pub fn read_full<S: Read>(source: &mut S, buffer: &mut [u8]) -> usize
    ensures { IsPrefixLen result buffer.new }
{
    let mut done = 0;
    // The first `done` bytes are read. A while: a read moves the end by as many bytes as it brought.
    while done < buffer.len() {
        match source.read(&mut buffer[done..]) {
            Ok(n) if n > 0 => done += n,
            _ => break,
        }
    }
    done
}
