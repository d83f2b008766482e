// Admission: which calls of finishing are refused.
#![tactic(auto)]

ghost use Rattle.std.specs.Prelude.{◌≡◌};
ghost use Rattle.admission.specs.Admission.{admitted, admission};
ghost use Rattle.admission.specs.Answer.{refusal_of, answer_of};

use reading::{Misread, Refusal};

// What finishing refuses of a call; specs/Answer.antt gives the number and the place of each case.
#[derive(Clone, Copy)]
pub enum Refused {
    // The term area is over 16,384 bytes.
    AreaTooLong,
    // The work area is shorter than the term area.
    WorkTooShort,
    // The length exceeds the term area.
    LengthTooLong,
    // The fuel is over 1,000,000.
    FuelTooHigh,
    // What reading refused, unaltered.
    Unread(Misread),
}

impl Refusal for Refused {
    ghost refusal = { refusal_of };

    fn number(&self) -> u64 {
        match *self {
            Refused::AreaTooLong => 1,
            Refused::WorkTooShort => 2,
            Refused::LengthTooLong => 3,
            Refused::FuelTooHigh => 4,
            Refused::Unread(misread) => misread.number(),
        }
    }

    fn place(&self) -> usize {
        match *self {
            Refused::AreaTooLong
            | Refused::WorkTooShort
            | Refused::LengthTooLong
            | Refused::FuelTooHigh => 0,
            Refused::Unread(misread) => misread.place(),
        }
    }
}

// Whether a call is refused; nothing is written.
pub fn admit(area: &[u8], len: usize, work: &[u8], fuel: u64) -> Result<(), Refused>
    ensures { answer_of result ≡ admission (admitted area.now len work.now fuel) }
{
    if calculus::AREA_LIMIT < area.len() {
        return Err(Refused::AreaTooLong);
    }
    if work.len() < area.len() {
        return Err(Refused::WorkTooShort);
    }
    if area.len() < len {
        return Err(Refused::LengthTooLong);
    }
    if calculus::FUEL_LIMIT < fuel {
        return Err(Refused::FuelTooHigh);
    }
    let reading = reading::read(&area[..len]);
    let Ok(_) = reading else {
        return Err(Refused::Unread(reading.unwrap_err()));
    };
    Ok(())
}
