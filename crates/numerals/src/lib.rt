// A number's decimal digits, without leading zeros, written into a slice. Total: the definition says what happens where they do not fit.
#![tactic(auto)]

ghost use Rattle.std.specs.Prelude.{◌≡◌, ◌+◌, ◌%◌, ◌≤◌, length};
ghost use Rattle.slices.specs.Numeral.{decimal};
ghost use Rattle.slices.specs.Put.{put, behind};

// How many digits a number has: at most twenty.
pub fn decimal_length(n: u64) -> usize
    ensures value { result ≡ length (decimal n) }
    ensures upper_bound { result ≤ 20 }
{
    let mut count = 1;
    let mut rest = n;
    // Kept: a `while`, since what is left is divided in each turn; the digits are counted, and no index.
    while rest > 9 {
        rest /= 10;
        count += 1;
    }
    count
}

// Writes a number's digits to index `at` of `dst` and answers the index behind them; changes nothing where they do not fit.
#[tactic(auto, using(crate::proofs::Writing::fitting))]
pub fn append_decimal(n: u64, dst: &mut [u8], at: usize) -> usize
    ensures { (dst.new ≡ put at (decimal n) dst.old) × (result ≡ behind at (decimal n) dst.old) }
{
    let count = decimal_length(n);
    if dst.len().saturating_sub(at) < count {
        return at;
    }
    let end = at + count;
    write_digits(n, dst, at, end);
    end
}

// Writes a number's digits between two indices that they fill, the last digit first.
fn write_digits(n: u64, dst: &mut [u8], at: usize, end: usize)
    requires end_value { end ≡ at + length (decimal n) }
    requires end_in_bounds { end ≤ length dst.old }
    ensures { dst.new ≡ put at (decimal n) dst.old }
{
    let mut rest = n;
    for i in (at..end).rev() {
        dst[i] = last_digit(rest);
        rest /= 10;
    }
}

// A number's last digit.
fn last_digit(n: u64) -> u8
    ensures { result ≡ 48 + n % 10 }
{
    48 + (n % 10) as u8
}
