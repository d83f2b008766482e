// Stepping: one step of the term in a lent area, or several at once.
#![tactic(auto)]

ghost use Rattle.std.specs.Prelude.{◌≡◌, ℕ, ◌≤◌, length, take, []};
ghost use Rattle.calculus.specs.Limits.{area_limit, fuel_limit};
ghost use Rattle.calculus.specs.Counts.{tally};
ghost use Rattle.calculus.specs.Term.{Term};
ghost use Rattle.calculus.specs.Order.{next};
ghost use Rattle.reading.specs.Reply.{Reply};
ghost use Rattle.reading.specs.Reading.{reading_of};
ghost use Rattle.stepping.specs.Held.{Holds};
ghost use Rattle.stepping.specs.Stepping.{After, step_next, stepping_of};
ghost use Rattle.stepping.specs.Answer.{refusal_of, stepped_of, answer_of};
ghost use Rattle.stepping.specs.Batch.{Advances};

use filling::clear;
use reading::{Misread, Refusal};
use reducing::next_rewrite;
use rewriting::growth;
use writing::write_back;

// What stepping refuses; specs/Answer.antt gives the number and the place of each case.
#[derive(Clone, Copy)]
pub enum Refused {
    // The term area is over 16,384 bytes.
    AreaTooLong,
    // The work area is shorter than the term area.
    WorkTooShort,
    // The length exceeds the term area.
    LengthTooLong,
    // What reading refused, unaltered.
    Unread(Misread),
}

impl Refusal for Refused {
    ghost refusal = { refusal_of };

    fn number(&self) -> u64 {
        match *self {
            Refused::AreaTooLong => 1,
            Refused::WorkTooShort => 2,
            Refused::LengthTooLong => 3,
            Refused::Unread(misread) => misread.number(),
        }
    }

    fn place(&self) -> usize {
        match *self {
            Refused::AreaTooLong | Refused::WorkTooShort | Refused::LengthTooLong => 0,
            Refused::Unread(misread) => misread.place(),
        }
    }
}

// What stepping answers; specs/Answer.antt gives the values of each case.
#[derive(Clone, Copy)]
pub enum Stepped {
    // The term has no next step; its size.
    Normal(usize),
    // The next term is larger than the area; the size of the term, which stays.
    NoRoom(usize),
    // The rule's number, and the size of the new term.
    Done(u8, usize),
}

// One step of the term in the first `len` bytes, or what keeps it from one.
fn advance(area: &mut [u8], len: usize, work: &mut [u8]) -> Stepped
    requires { (len ≤ length area.old) × (length area.old ≤ length work.old) × (length area.old ≤ area_limit) }
    ensures { (t : Term) → Holds area.old len t
        → After.after (Reply.answered (stepped_of result)) area.new work.new ≡ step_next t (next t) area.old work.old }
{
    let Some(w) = next_rewrite(&area[..len]) else {
        clear(area, len, work);
        return Stepped::Normal(len);
    };
    if area.len() - len < growth(w) {
        clear(area, len, work);
        return Stepped::NoRoom(len);
    }
    let size = write_back(area, len, w, work);
    Stepped::Done(w.rule, size)
}

// One step of the term in the first `len` bytes of the area. A refusal leaves both areas as they are.
#[tactic(auto, unfolding(crate::specs::Stepping::stepping_of))]
pub fn step(area: &mut [u8], len: usize, work: &mut [u8]) -> Result<Stepped, Refused>
    ensures { After.after (answer_of result) area.new work.new ≡ stepping_of area.old len work.old }
{
    if calculus::AREA_LIMIT < area.len() {
        return Err(Refused::AreaTooLong);
    }
    if work.len() < area.len() {
        return Err(Refused::WorkTooShort);
    }
    if area.len() < len {
        return Err(Refused::LengthTooLong);
    }
    let reading = reading::read(&area[..len]);
    let Ok(size) = reading else {
        return Err(Refused::Unread(reading.unwrap_err()));
    };
    Ok(advance(area, size, work))
}

// What several steps at once have come to: how many were made, how often each rule was used, rule 1 first, and the size of the term
// reached.
#[derive(Clone, Copy)]
pub struct Batch {
    pub made: u64,
    pub by_rule: [u32; calculus::RULES],
    pub size: usize,
}

// No step: the term stays, with that size.
fn no_steps(len: usize) -> Batch
    ensures { (result.made ≡ 0) × (result.by_rule ≡ tally []) × (result.size ≡ len) }
{
    Batch {
        made: 0,
        by_rule: [0; calculus::RULES],
        size: len,
    }
}

// Up to `most` steps at once of the term in the first `len` bytes. It may stop early, and decides no outcome. None are
// made where one alone is asked for, which `step` does sooner, nor of bytes that are no term.
pub fn steps(area: &mut [u8], len: usize, most: u64) -> Batch
    ensures advances { (t : Term) → Holds area.old len t
        → Advances area.old t most result.made result.by_rule result.size area.new }
    ensures unread { (number place : ℕ) → reading_of (take len area.old) ≡ Reply.refused number place
        → (area.new ≡ area.old) × (result.made ≡ 0) }
{
    if most <= 1 || area.len() < len {
        return no_steps(len);
    }
    let Ok(size) = reading::read(&area[..len]) else {
        return no_steps(len);
    };
    let mut by_rule = [0u32; calculus::RULES];
    let made = arenas::advance(area, size, &mut by_rule, most.min(calculus::FUEL_LIMIT));
    Batch {
        made: made.steps,
        by_rule,
        size: made.size,
    }
}
