// What the finishing program's line asks for: fuel, area size and term.
#![tactic(auto)]

ghost use Rattle.std.specs.Prelude.{◌≡◌};
ghost use Rattle.finish_line.specs.Request.{is_area_size};
ghost use Rattle.finish_line.specs.Answer.{asked_with, asked_of, shape_refusal};

use line_states::Line;
use reading::Refusal;

// The largest area size.
const AREA_LIMIT: u64 = calculus::AREA_LIMIT as u64;

// What the whole input asks for. Fuel over 1,000,000 is 1,000,001, and a term of more than 16,384 bytes has the length 16,385.
#[derive(Clone, Copy)]
pub struct Request {
    pub fuel: u64,
    pub area: usize,
    pub length: usize,
}

// The refusal of input that has another shape than the program's line.
pub struct OtherShape;

impl Refusal for OtherShape {
    ghost refusal = { λ _. shape_refusal };

    fn number(&self) -> u64 {
        19
    }

    fn place(&self) -> usize {
        0
    }
}

// What the line asks for, once all of the input was fed; none where it is not one line of three fields, a number malformed, or an area
// size out of range.
pub fn asked_for(line: Line) -> Option<Request>
    ensures { result ≡ asked_of line }
{
    match line {
        Line::Ended {
            first,
            second,
            length,
            ..
        } => asked_with(first, second, length),
        _ => None,
    }
}

// What fuel, area size and the length of a term ask for.
fn asked_with(fuel: u64, area: u64, length: usize) -> Option<Request>
    ensures { result ≡ asked_with fuel area «length» }
{
    if is_area_size(area) {
        return Some(Request {
            fuel,
            area: area as usize,
            length,
        });
    }
    None
}

// Whether an area size is in range.
fn is_area_size(n: u64) -> bool
    ensures { result ≡ is_area_size n }
{
    1 <= n && n <= AREA_LIMIT
}
