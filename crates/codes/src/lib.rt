// How a reply is one number, for callers in C: a code, and what stands behind it.
#![tactic(auto)]

ghost use Rattle.std.specs.Prelude.{◌≡◌};
ghost use Rattle.codes.specs.Encoding.{Parts, encode, refusal_number};

use reading::Refusal;

// A code, and behind it a place, a line or a size of 56 bits.
pub fn wide(code: u64, place: usize) -> u64
    ensures { result ≡ encode (Parts.wide code place) }
{
    code % 256 + (place as u64) % 72057594037927936 * 256
}

// A code, and behind it a value of 24 bits and a size of 32.
pub fn narrow(code: u64, value: usize, size: usize) -> u64
    ensures { result ≡ encode (Parts.narrow code value size) }
{
    code % 256 + (value as u64) % 16777216 * 256 + (size as u64) % 4294967296 * 4294967296
}

// The number of a refusal: its own of the table of replies, and behind it its place or line.
pub fn refused<R: Refusal>(refusal: &R) -> u64
    ensures { result ≡ refusal_number (R.refusal refusal.now) }
{
    wide(refusal.number(), refusal.place())
}
