// Joining: one piece after another, as one term.
#![tactic(auto)]

ghost use Rattle.std.specs.Prelude.{◌≡◌, ◌≤◌, leb, length};
ghost use Rattle.slices.specs.Wrote.{Wrote};
ghost use Rattle.joining.specs.Join.{join_text, join_size};
ghost use Rattle.joining.specs.Joining.{After, joining_of};
ghost use Rattle.joining.specs.Answer.{refusal_of, answer_of};

use calculus::letters::{A, B, H, I, J, R};
use filling::{append, append_byte, zero_from};
use reading::{Misread, Refusal};

// How many letters a join has beside those of its two terms (specs/Join.antt).
const FRAME: usize = 12;

// What joining refuses; specs/Answer.antt gives the number of each case.
#[derive(Clone, Copy)]
pub enum Refused {
    // What reading refused of the first term, else of the second, unaltered.
    Unread(Misread),
    // The join is larger than the area.
    TooLarge,
}

impl Refusal for Refused {
    ghost refusal = { refusal_of };

    fn number(&self) -> u64 {
        match *self {
            Refused::Unread(misread) => misread.number(),
            Refused::TooLarge => 31,
        }
    }

    fn place(&self) -> usize {
        match *self {
            Refused::Unread(misread) => misread.place(),
            Refused::TooLarge => 0,
        }
    }
}

// Whether an area of so many bytes has room for the join of terms of these sizes, which together may be more than a `usize` holds: then
// none has.
fn has_room(f: usize, g: usize, area: usize) -> bool
    ensures { result ≡ leb (join_size f g) area }
{
    let Some(size) = f.checked_add(g).and_then(|both| both.checked_add(FRAME)) else {
        return false;
    };
    size <= area
}

// Writes the text of the join to the front of the area, and answers the index behind it.
fn write(f: &[u8], g: &[u8], area: &mut [u8]) -> usize
    requires { join_size (length f.now) (length g.now) ≤ length area.old }
    ensures { Wrote 0 result (join_text f.now g.now) area.old area.new }
{
    let front = [A, B];
    let rest = [I, H, R, J, H, R, R, J, J];
    let opened = append(&front, 0, front.len(), area, 0);
    let one = append(f, 0, f.len(), area, opened);
    let paired = append_byte(B, area, one);
    let two = append(g, 0, g.len(), area, paired);
    append(&rest, 0, rest.len(), area, two)
}

// The join of f and g, which does g first and then f, at the front of the area, and zeros behind it. A refusal leaves the area as it is.
pub fn join(f: &[u8], g: &[u8], area: &mut [u8]) -> Result<usize, Refused>
    ensures { After.after (answer_of result) area.new ≡ joining_of f.now g.now area.old }
{
    let first = reading::read(f);
    let Ok(f_size) = first else {
        return Err(Refused::Unread(first.unwrap_err()));
    };
    let second = reading::read(g);
    let Ok(g_size) = second else {
        return Err(Refused::Unread(second.unwrap_err()));
    };
    if !has_room(f_size, g_size, area.len()) {
        return Err(Refused::TooLarge);
    }
    let size = write(f, g, area);
    zero_from(area, size);
    Ok(size)
}
