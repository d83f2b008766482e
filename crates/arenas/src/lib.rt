// Arenas in five sizes, so that a short term does not pay for zeroing a long one's. A term gets the smallest that has four cells for each
// of its letters, and goes on in the next larger one when that is full or outgrown.
#![tactic(auto)]

ghost use Rattle.machine.specs.Advancing.{Runnable, Advanced};

use large_arenas::{go_on, go_on_large};
use machine::Made;

// How many cells the three smallest have, for up to 64 letters, 256 and 1,024; the others are in `large_arenas`.
const TINY: usize = 256;

const SMALL: usize = 1024;

const MIDDLE: usize = 4096;

// Up to `most` steps of the term in the first `len` bytes, each with room in the area.
pub fn advance(area: &mut [u8], len: usize, counts: &mut [u32], most: u64) -> Made
    requires { Runnable area.old len counts.old most }
    ensures { (p : Runnable area.old len counts.old most)
        → Advanced area.old p.term p.used most area.new counts.new result }
{
    let none = Made {
        steps: 0,
        size: len,
        left: true,
    };
    let tiny = go_on::<0, TINY>(none, area, counts, most);
    let small = go_on::<TINY, SMALL>(tiny, area, counts, most);
    let middle = go_on::<SMALL, MIDDLE>(small, area, counts, most);
    go_on_large::<MIDDLE>(middle, area, counts, most)
}
