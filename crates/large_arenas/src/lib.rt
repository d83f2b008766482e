// Going on with a batch of steps in an arena of any size; and the two largest arenas, for up to 4,096 letters and for up to 16,384.
#![tactic(auto)]

ghost use Rattle.std.specs.Prelude.{◌≡◌, ◌+◌, ◌≤◌, ◌<◌, false};
ghost use Rattle.calculus.specs.Limits.{fuel_limit};
ghost use Rattle.cells.specs.Cell.{cell_limit};
ghost use Rattle.machine.specs.Advancing.{Runnable, Advanced};
ghost use Rattle.large_arenas.specs.Underway.{Underway};

use cells::CELL_LIMIT;
use machine::{Made, run};

// How many cells the smaller of them has.
const LARGE: usize = 16384;

// Whether a batch in an arena of that many cells is all that can be made here: no part is left, or no step, or the area is no larger than
// the terms that the arena is for.
pub fn is_all(made: Made, most: u64, area: usize, cells: usize) -> bool
    ensures { result ≡ false → made.steps < most }
{
    !made.left || most <= made.steps || area <= cells / 4
}

// What two batches, one after the other, have come to.
pub fn both(first: Made, second: Made) -> Made
    requires { (first.steps ≤ fuel_limit) × (second.steps ≤ fuel_limit) }
    ensures { (result.steps ≡ first.steps + second.steps) × (result.size ≡ second.size) }
{
    Made {
        steps: first.steps + second.steps,
        size: second.size,
        left: second.left,
    }
}

// A batch in an arena of CELLS cells. The arena lies in a frame of its own, so that a call that needs no large one has none on the stack.
#[inline(never)]
fn in_arena<const CELLS: usize>(area: &mut [u8], len: usize, counts: &mut [u32], most: u64) -> Made
    requires short { CELLS ≤ cell_limit }
    requires runnable { Runnable area.old len counts.old most }
    ensures { (p : Runnable area.old len counts.old most)
        → Advanced area.old p.term p.used most area.new counts.new result }
{
    let mut cells = [0u64; CELLS];
    run(&mut cells, area, len, counts, most)
}

// Goes on with a batch in an arena of CELLS cells, behind one of BEFORE, 0 for none: unless that one's batch is all, or the arena is none for a
// term of so many letters.
pub fn go_on<const BEFORE: usize, const CELLS: usize>(
    first: Made,
    area: &mut [u8],
    counts: &mut [u32],
    most: u64,
) -> Made
    requires short { CELLS ≤ cell_limit }
    requires underway { Underway area.old counts.old most first }
    ensures { (u : Underway area.old counts.old most first)
        → Advanced area.old u.term u.used most area.new counts.new result }
{
    if is_all(first, most, area.len(), BEFORE) {
        return first;
    }
    if CELLS / 4 < first.size {
        return first;
    }
    let second = in_arena::<CELLS>(area, first.size, counts, most - first.steps);
    both(first, second)
}

// Goes on in the two largest arenas, behind one of BEFORE cells: the last takes 512 KB on the stack.
pub fn go_on_large<const BEFORE: usize>(
    first: Made,
    area: &mut [u8],
    counts: &mut [u32],
    most: u64,
) -> Made
    requires { Underway area.old counts.old most first }
    ensures { (u : Underway area.old counts.old most first)
        → Advanced area.old u.term u.used most area.new counts.new result }
{
    let large = go_on::<BEFORE, LARGE>(first, area, counts, most);
    go_on::<LARGE, CELL_LIMIT>(large, area, counts, most)
}
