// What is read of slices: bytes, parts and their places. Each function is total: its definition says what happens out of range.
#![tactic(auto)]

ghost use Rattle.std.specs.Prelude.{◌≡◌, get_or, length, replicate};
ghost use Rattle.slices.specs.Find.{index_of};
ghost use Rattle.slices.specs.Part.{part};
ghost use Rattle.slices.specs.Same.{same};

// The byte between two fields, and the byte that ends a line.
pub const TAB: u8 = 9;

pub const LINE_FEED: u8 = 10;

// The bytes of the digits `0` and `9`.
pub const DIGIT_0: u8 = 48;

pub const DIGIT_9: u8 = 57;

// The byte of `s` at index `at`, and 0 past the end.
pub fn byte_at(s: &[u8], at: usize) -> u8
    ensures { result ≡ get_or s.now at 0 }
{
    s.get(at).copied().unwrap_or(0)
}

// The index of the first `b`, the length where there is none.
pub fn find(s: &[u8], b: u8) -> usize
    ensures { result ≡ index_of b s.now }
{
    s.iter().position(|x| *x == b).unwrap_or(s.len())
}

// Whether every byte is 0. It has no way out before the end, so that the compiler looks at many bytes at once.
#[tactic(auto, using(crate::proofs::Zeros::zeros_step))]
pub fn is_zeros(s: &[u8]) -> bool
    ensures { result ≡ same s.now (replicate (length s.now) 0) }
{
    let mut clean = true;
    for x in s {
        if *x != 0 {
            clean = false;
        }
    }
    clean
}

// The part of `s` from index `from` up to, not including, `to`.
pub fn cut(s: &[u8], from: usize, to: usize) -> &[u8]
    ensures { result.now ≡ part from to s.now }
{
    if to <= from {
        return &s[..0];
    }
    if to <= s.len() {
        return &s[from..to];
    }
    if from <= s.len() {
        return &s[from..];
    }
    &s[..0]
}

// Whether two parts hold the same bytes.
pub fn same_part(a: &[u8], a_from: usize, a_to: usize, b: &[u8], b_from: usize, b_to: usize) -> bool
    ensures { result ≡ same (part a_from a_to a.now) (part b_from b_to b.now) }
{
    cut(a, a_from, a_to) == cut(b, b_from, b_to)
}

// A part of a slice by where it stands: from index `from` up to, not including, `to`.
#[derive(Clone, Copy)]
pub struct Span {
    pub from: usize,
    pub to: usize,
}

impl Span {
    // The bytes of the part.
    pub fn of(self, s: &[u8]) -> &[u8]
        ensures { result.now ≡ part self.from self.to s.now }
    {
        cut(s, self.from, self.to)
    }
}
