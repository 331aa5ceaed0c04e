// Bytes written, every write tested, and lines put together from bytes and numbers.
ghost use Rattle.streams.specs.Counts.{IsPrefixLen};

use std::io::Error;
use streams::{Output, Outputs, decimal, fail};

// Writes to an output, and answers whether all was written. Standard error tells if it was standard output that could not be.
pub fn put(rt: &impl Outputs, to: Output, bytes: &[u8]) -> bool {
    match rt.write_bytes(to, bytes) {
        Ok(()) => true,
        Err(e) => {
            if to == Output::Standard {
                fail(rt, b"standard output", e);
            }
            false
        }
    }
}

// Tells on standard error that something could not be read, with the system's words for the call that failed. Whether it could be written
// is seen by the first part.
pub fn cannot(rt: &impl Outputs, name: &[u8], error: Error) -> bool {
    if !put(rt, Output::Error, name) {
        return false;
    }
    fail(rt, b"", error);
    true
}

// Appends bytes to what stands before `at`, as far as there is room, and answers where they end. No struct of a buffer and its length: the
// clause speaks of the slice that is lent, of whatever size.
pub fn append(out: &mut [u8], at: usize, bytes: &[u8]) -> usize
    ensures { IsPrefixLen result out.new }
{
    let start = at.min(out.len());
    let end = start + bytes.len().min(out.len() - start);
    out[start..end].copy_from_slice(&bytes[..end - start]);
    end
}

// Appends a number's decimal digits.
pub fn append_decimal(out: &mut [u8], at: usize, n: u64) -> usize
    ensures { IsPrefixLen result out.new }
{
    let mut digits = [0u8; 20];
    let k = decimal(n, &mut digits);
    append(out, at, &digits[..k])
}
