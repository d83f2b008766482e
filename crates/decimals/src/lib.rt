// Decimal numbers without leading zeros, read a byte at a time or a slice at once. Numbers above a cap are kept as the cap.
#![tactic(auto)]

ghost use Rattle.std.specs.Prelude.{◌≡◌};
ghost use Rattle.slices.specs.Numeral.{is_digit, decimal_of};
ghost use Rattle.decimals.specs.Parsed.{fed, first, further, more, parsed_of, up_to};

// What the bytes so far are.
#[derive(Clone, Copy)]
pub enum Decimal {
    // No byte yet.
    Empty,
    // `0`, which no further digit may follow.
    Zero,
    // A number from 1 upwards.
    Digits(u64),
    // Bytes that no decimal number begins with. Kept: a state like the others, and no `Option` around them, as in `line_states`.
    Other,
}

// One byte more.
pub fn feed(decimal: Decimal, b: u8, cap: u64) -> Decimal
    ensures { result ≡ fed cap decimal b }
{
    match decimal {
        Decimal::Empty => first_digit(b, cap),
        Decimal::Zero => Decimal::Other,
        Decimal::Digits(n) => further_digit(n, b, cap),
        Decimal::Other => Decimal::Other,
    }
}

// The number that the bytes so far are, where they are one.
pub fn number(decimal: Decimal) -> Option<u64>
    ensures { result ≡ parsed_of decimal }
{
    match decimal {
        Decimal::Empty => None,
        Decimal::Zero => Some(0),
        Decimal::Digits(n) => Some(n),
        Decimal::Other => None,
    }
}

// The number that a slice is, where it is one, at most the cap.
pub fn read_decimal(s: &[u8], cap: u64) -> Option<u64>
    ensures { result ≡ up_to cap (decimal_of s.now) }
{
    let mut decimal = Decimal::Empty;
    for b in s {
        decimal = feed(decimal, *b, cap);
    }
    number(decimal)
}

// The first byte.
fn first_digit(b: u8, cap: u64) -> Decimal
    ensures { result ≡ first cap b }
{
    if b == slices::DIGIT_0 {
        return Decimal::Zero;
    }
    further_digit(0, b, cap)
}

// A byte behind digits that make n.
fn further_digit(n: u64, b: u8, cap: u64) -> Decimal
    ensures { result ≡ further cap n b }
{
    if is_digit(b) {
        return Decimal::Digits(one_more(n, u64::from(b - slices::DIGIT_0), cap));
    }
    Decimal::Other
}

// Whether a byte is a decimal digit.
fn is_digit(b: u8) -> bool
    ensures { result ≡ is_digit b }
{
    b.is_ascii_digit()
}

// A number with one digit more behind it, at most the cap.
fn one_more(n: u64, digit: u64, cap: u64) -> u64
    ensures { result ≡ more cap n digit }
{
    n.saturating_mul(10).saturating_add(digit).min(cap)
}
