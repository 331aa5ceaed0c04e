// A byte looked for.
#![tactic(auto)]

ghost use Rattle.std.specs.Prelude.{◌≤◌, ◌≡◌, ◌+◌, length};
ghost use Rattle.find_byte.specs.Place.{slice, index_of};

// Where a byte first stands in `bytes` from `from` up to `to`, or `to` where it does not.
pub fn find(bytes: &[u8], from: usize, to: usize, byte: u8) -> usize
    requires { (from ≤ to) × (to ≤ length bytes.now) }
    ensures place { result ≡ from + index_of byte (slice from to bytes.now) }
    ensures high { result ≤ to }
    ensures low { from ≤ result }
{
    let part = &bytes[from..to];
    from + part.iter().position(|b| *b == byte).unwrap_or(part.len())
}
