// Premise fields.
#![tactic(auto)]

ghost use Rattle.std.specs.Prelude.{◌≡◌, min, length};
ghost use Rattle.calculus.specs.Limits.{line_limit};
ghost use Rattle.slices.specs.Numeral.{number_of};
ghost use Rattle.derivation_files.specs.Line.{is_dash, premise_of};
ghost use Rattle.premises.specs.Cited.{within, cited_of, is_dashed, is_line, cited_fit};

// The premise field of a rule that has no premise there.
const DASH: u8 = b'-';

// What a premise field names. Kept: three cases, none of them an error, so neither an Option nor a Result.
#[derive(Clone, Copy)]
pub enum Cited {
    // `-`.
    Dash,
    // The earlier line that begins at that index.
    Line(usize),
    // No earlier line.
    Nothing,
}

impl Cited {
    fn is_dashed(self) -> bool
        ensures { result ≡ is_dashed self }
    {
        matches!(self, Cited::Dash)
    }

    fn is_line(self) -> bool
        ensures { result ≡ is_line self }
    {
        matches!(self, Cited::Line(_))
    }
}

// What a premise field names, where the lines that went before begin at `starts`; no field names a line past the limit.
#[tactic(auto, using(crate::proofs::Citing::cite_dash, crate::proofs::Citing::cite_none, crate::proofs::Citing::number_few, crate::proofs::Citing::cite_line, crate::proofs::Citing::cite_late))]
pub fn cite(field: &[u8], starts: &[usize]) -> Cited
    ensures { result ≡ cited_of starts.now (min (length starts.now) line_limit) (premise_of field.now) }
{
    if is_dash(field) {
        return Cited::Dash;
    }
    let Some(number) = number_of(field) else {
        return Cited::Nothing;
    };
    match starts.get(number - 1).copied() {
        Some(start) => Cited::Line(start),
        None => Cited::Nothing,
    }
}

// Whether each field names what a rule with that many premises has there.
pub fn premises_fit(count: usize, first: Cited, second: Cited) -> bool
    ensures { result ≡ cited_fit count first second }
{
    match count {
        0 => first.is_dashed() && second.is_dashed(),
        1 => first.is_line() && second.is_dashed(),
        _ => first.is_line() && second.is_line(),
    }
}

fn is_dash(s: &[u8]) -> bool
    ensures { result ≡ is_dash s.now }
{
    matches!(s, [DASH])
}

// The decimal number, from 1 up to the limit of lines.
#[tactic(auto, using(crate::proofs::Citing::number_none))]
fn number_of(s: &[u8]) -> Option<usize>
    ensures { result ≡ within line_limit (number_of s.now) }
{
    let number = decimals::read_decimal(s, calculus::LINE_LIMIT as u64 + 1)?;
    if number == 0 || number > calculus::LINE_LIMIT as u64 {
        return None;
    }
    Some(number as usize)
}
