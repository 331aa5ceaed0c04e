// The two outputs of a program, as bytes, and whether somebody sits at its input.
use crate::number::decimal;
use std::io;
use std::io::{IsTerminal, Print};

// Where bytes go.
#[derive(Clone, Copy, PartialEq, Eq, Debug)]
pub enum Output {
    Standard,
    Error,
}

// What writes to the two outputs. The library's own traits give standard error text alone, and what a program tells there has bytes of
// files and arguments in it.
pub trait Outputs {
    // Writes all of the bytes, or fails; then some of them may have been written. Of no bytes nothing is written.
    fn write_bytes(&self, to: Output, bytes: &[u8]) -> io::Result<()>;
}

impl Outputs for HostRuntime {
    fn write_bytes(&self, to: Output, bytes: &[u8]) -> io::Result<()> {
        match to {
            Output::Standard => Print::write_all(&self.stdout(), bytes),
            Output::Error => Print::write_all(&self.stderr(), bytes),
        }
    }
}

// What knows whether standard input is a terminal.
pub trait Terminal {
    fn is_terminal(&self) -> bool;
}

impl Terminal for HostRuntime {
    fn is_terminal(&self) -> bool {
        self.stdin().is_terminal()
    }
}

// Writes all of the bytes, and answers whether that was done.
pub fn write_all(rt: &impl Outputs, to: Output, bytes: &[u8]) -> bool {
    rt.write_bytes(to, bytes).is_ok()
}

// Writes a number's decimal digits, and answers whether that was done.
pub fn print_decimal(rt: &impl Outputs, to: Output, n: u64) -> bool {
    let mut digits = [0u8; 20];
    let k = decimal(n, &mut digits);
    write_all(rt, to, &digits[..k])
}
