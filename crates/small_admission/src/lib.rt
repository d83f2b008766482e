// Which calls for small terms are refused.
#![tactic(auto)]

ghost use Rattle.std.specs.Prelude.{◌≡◌};
ghost use Rattle.small_admission.specs.Admission.{is_small_size, admitted};
ghost use Rattle.small_admission.specs.Answer.{refusal_of, answer_of};

use reading::Refusal;

// The sizes of the smallest and of the largest terms that are run.
const SMALLEST_SIZE: u64 = 1;

const LARGEST_SIZE: u64 = small_texts::LARGEST_SIZE as u64;

// The most bytes that an area has.
const AREA_LIMIT: u64 = calculus::AREA_LIMIT as u64;

// Why a call is refused; specs/Answer.antt gives the number of each case.
#[derive(Clone, Copy)]
pub enum Refused {
    // The size is not from 1 to 7.
    NotSmall,
    // The fuel is over 1,000,000.
    FuelTooHigh,
    // The area size is over 16,384.
    AreaTooLong,
    // The area size is below the terms' size.
    AreaTooShort,
}

impl Refusal for Refused {
    ghost refusal = { refusal_of };

    fn number(&self) -> u64 {
        match *self {
            Refused::NotSmall => 32,
            Refused::FuelTooHigh => 4,
            Refused::AreaTooLong => 1,
            Refused::AreaTooShort => 3,
        }
    }

    fn place(&self) -> usize {
        0
    }
}

// Whether terms of that size are run.
fn is_small_size(n: u64) -> bool
    ensures { result ≡ is_small_size n }
{
    (SMALLEST_SIZE..=LARGEST_SIZE).contains(&n)
}

// Whether a call is refused, and why.
#[tactic(auto, unfolding(crate::specs::Admission::admitted))]
pub fn admit(n: u64, fuel: u64, area: u64) -> Result<(), Refused>
    ensures { answer_of result ≡ admitted n fuel area }
{
    if !is_small_size(n) {
        return Err(Refused::NotSmall);
    }
    if calculus::FUEL_LIMIT < fuel {
        return Err(Refused::FuelTooHigh);
    }
    if AREA_LIMIT < area {
        return Err(Refused::AreaTooLong);
    }
    if area < n {
        return Err(Refused::AreaTooShort);
    }
    Ok(())
}
