// What a line of three numbers asks for: the size of small terms, fuel and area size.
#![tactic(auto)]

ghost use Rattle.std.specs.Prelude.{◌≡◌};
ghost use Rattle.sweep_line.specs.Answer.{asked_of};

use line_states::Line;

// What the whole input asks for. A number over 1,000,000 is 1,000,001.
#[derive(Clone, Copy)]
pub struct Request {
    pub size: u64,
    pub fuel: u64,
    pub area: u64,
}

// What the line asks for, once all of the input was fed; none where it is not one line of three numbers.
pub fn asked_for(line: Line) -> Option<Request>
    ensures { result ≡ asked_of line }
{
    let Line::Ended {
        first,
        second,
        third,
        ..
    } = line
    else {
        return None;
    };
    let area = decimals::number(third)?;
    Some(Request {
        size: first,
        fuel: second,
        area,
    })
}
