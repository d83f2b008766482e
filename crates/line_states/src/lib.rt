// The state of a line of three fields, a byte at a time: two decimal numbers, then any bytes but tab and line feed.
#![tactic(auto)]

ghost use Rattle.std.specs.Prelude.{◌≡◌};
ghost use Rattle.line_states.specs.Fed.{start_line, fed_line, in_first, first_read, in_second, second_read, in_third, counted};

use decimals::Decimal;

// The least number and the least length of the third field that are refused whatever they are.
const NUMBER_CAP: u64 = calculus::FUEL_LIMIT + 1;

pub const LENGTH_CAP: usize = calculus::AREA_LIMIT + 1;

// The line so far, by the field that the next byte stands in. Numbers and length are kept up to their caps; the third field is followed
// as a decimal number too, and its bytes are in a buffer that the caller lends.
#[derive(Clone, Copy)]
pub enum Line {
    InFirst(Decimal),
    InSecond {
        first: u64,
        number: Decimal,
    },
    InThird {
        first: u64,
        second: u64,
        number: Decimal,
        length: usize,
    },
    // Behind the line feed.
    Ended {
        first: u64,
        second: u64,
        third: Decimal,
        length: usize,
    },
    // Behind bytes of another shape.
    // Kept: a state like the others, and no `Option`: with one every step would unwrap the line first and wrap what it makes of it.
    Other,
}

// A line before its first byte.
pub fn start() -> Line
    ensures { result ≡ start_line }
{
    Line::InFirst(Decimal::Empty)
}

// The line with one byte more.
pub fn fed_line(line: Line, b: u8) -> Line
    ensures { result ≡ fed_line line b }
{
    match line {
        Line::InFirst(number) => in_first(number, b),
        Line::InSecond { first, number } => in_second(first, number, b),
        Line::InThird {
            first,
            second,
            number,
            length,
        } => in_third(first, second, number, length, b),
        Line::Ended { .. } => Line::Other,
        Line::Other => Line::Other,
    }
}

// A byte of the first field, or the tab that ends it.
fn in_first(number: Decimal, b: u8) -> Line
    ensures { result ≡ in_first «number» b }
{
    if b == slices::TAB {
        return first_read(decimals::number(number));
    }
    Line::InFirst(decimals::feed(number, b, NUMBER_CAP))
}

// The line behind the first field.
fn first_read(parsed: Option<u64>) -> Line
    ensures { result ≡ first_read parsed }
{
    let Some(first) = parsed else {
        return Line::Other;
    };
    Line::InSecond {
        first,
        number: Decimal::Empty,
    }
}

// A byte of the second field, or the tab that ends it.
fn in_second(first: u64, number: Decimal, b: u8) -> Line
    ensures { result ≡ in_second first «number» b }
{
    if b == slices::TAB {
        return second_read(first, decimals::number(number));
    }
    Line::InSecond {
        first,
        number: decimals::feed(number, b, NUMBER_CAP),
    }
}

// The line behind the second field.
fn second_read(first: u64, parsed: Option<u64>) -> Line
    ensures { result ≡ second_read first parsed }
{
    let Some(second) = parsed else {
        return Line::Other;
    };
    Line::InThird {
        first,
        second,
        number: Decimal::Empty,
        length: 0,
    }
}

// A byte of the third field, or the line feed that ends it.
fn in_third(first: u64, second: u64, number: Decimal, length: usize, b: u8) -> Line
    ensures { result ≡ in_third first second «number» «length» b }
{
    if b == slices::LINE_FEED {
        return Line::Ended {
            first,
            second,
            third: number,
            length,
        };
    }
    if b == slices::TAB {
        return Line::Other;
    }
    Line::InThird {
        first,
        second,
        number: decimals::feed(number, b, NUMBER_CAP),
        length: one_longer(length),
    }
}

// The length of a field with one byte more, at most the cap.
fn one_longer(length: usize) -> usize
    ensures { result ≡ counted «length» }
{
    length.saturating_add(1).min(LENGTH_CAP)
}
