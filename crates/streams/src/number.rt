// A number as decimal text.
ghost use Rattle.std.specs.Prelude.{◌≡◌, ◌<◌, ◌≤◌, length, take, drop};
ghost use Rattle.streams.specs.Counts.{IsPrefixLen};
ghost use Rattle.streams.specs.Digits.{last_digits, IsDigitCount};

// Puts the decimal digits of n at the front of `out`, and answers how many there are.
pub fn decimal(n: u64, out: &mut [u8; 20]) -> usize
    ensures in_bounds { IsPrefixLen result out.new }
    ensures fewest { IsDigitCount n result }
    ensures digits { take result out.new ≡ last_digits result n }
    ensures rest { drop result out.new ≡ drop result out.old }
{
    let k = digit_count(n);
    write_digits(n, k, out);
    k
}

// How many decimal digits n takes.
fn digit_count(n: u64) -> usize
    ensures fewest { IsDigitCount n result }
    ensures bound { result ≤ 20 }
{
    n.checked_ilog10().map_or(1, |power| power as usize + 1)
}

// Puts the last k digits of n at the front of `out`.
fn write_digits(n: u64, k: usize, out: &mut [u8])
    requires { k ≤ length out.old }
    ensures digits { take k out.new ≡ last_digits k n }
    ensures rest { drop k out.new ≡ drop k out.old }
{
    let mut rest = n;
    // From i up to k stand the digits of n behind `rest`.
    for i in (0..k).rev() {
        out[i] = b'0' + (rest % 10) as u8;
        rest /= 10;
    }
}
