// Reading: whether bytes are the text of one term.
#![tactic(auto)]

ghost use Rattle.std.specs.Prelude.{◌≡◌};
ghost use Rattle.calculus.specs.Bell.{is_bell};
ghost use Rattle.reading.specs.Reply.{Reply, number_in, place_in};
ghost use Rattle.reading.specs.Reading.{reading_of};
ghost use Rattle.reading.specs.Answer.{refusal_of, answer_of};
ghost use Rattle.reading.specs.Arity.{arity_of};
ghost use Rattle.reading.specs.Stop.{has_stop};

use calculus::letters;

// What an operation refuses a call for: a number of the table of replies, and a place or line, 0 where the number has none of its own.
pub trait Refusal {
    // The reply that it is; nothing is answered.
    ghost refusal: { Self → Reply ⊥ };

    fn number(&self) -> u64
        ensures { result ≡ number_in (refusal self.now) };

    fn place(&self) -> usize
        ensures { result ≡ place_in (refusal self.now) };
}

// What reading refuses, and the place; specs/Answer.antt gives the number of each case.
#[derive(Clone, Copy)]
pub enum Misread {
    // The byte at that place is not one of the letters.
    NoLetter(usize),
    // The bytes end at that place, and the term is not yet whole.
    NotWhole(usize),
    // The term is already whole at that place, and a byte stands there.
    Beyond(usize),
}

impl Refusal for Misread {
    ghost refusal = { refusal_of };

    fn number(&self) -> u64 {
        match *self {
            Misread::NoLetter(_) => 5,
            Misread::NotWhole(_) => 6,
            Misread::Beyond(_) => 7,
        }
    }

    fn place(&self) -> usize {
        match *self {
            Misread::NoLetter(place) => place,
            Misread::NotWhole(place) => place,
            Misread::Beyond(place) => place,
        }
    }
}

// Reads a slice of any length, and answers the size of the term.
pub fn read(s: &[u8]) -> Result<usize, Misread>
    ensures { answer_of result ≡ reading_of s.now }
{
    let mut owed: usize = 1;
    for (at, b) in s.iter().enumerate() {
        if owed == 0 {
            return Err(Misread::Beyond(at));
        }
        let Some(parts) = arity(*b) else {
            return Err(Misread::NoLetter(at));
        };
        owed = owed - 1 + parts;
    }
    if owed == 0 {
        Ok(s.len())
    } else {
        Err(Misread::NotWhole(s.len()))
    }
}

// Whether a full stop stands among the bytes.
pub fn has_stop(s: &[u8]) -> bool
    ensures { result ≡ has_stop s.now }
{
    slices::find(s, letters::STOP) < s.len()
}

// How many terms the letter of a byte takes; none of a byte that is no letter.
pub fn arity(b: u8) -> Option<usize>
    ensures { result ≡ arity_of b }
{
    if b == letters::J {
        return Some(0);
    }
    if b == letters::I {
        return Some(0);
    }
    if b == letters::R {
        return Some(1);
    }
    if b == letters::H {
        return Some(2);
    }
    if b == letters::A {
        return Some(2);
    }
    if b == letters::B {
        return Some(2);
    }
    if b == letters::STOP {
        return Some(2);
    }
    if is_bell(b) {
        return Some(0);
    }
    None
}

// Whether the byte is the letter of a bell.
pub fn is_bell(b: u8) -> bool
    ensures { result ≡ is_bell b }
{
    if b < letters::FIRST_DIGIT {
        return false;
    }
    if b <= letters::LAST_DIGIT {
        return true;
    }
    b == letters::ELEVEN || b == letters::TWELVE
}
