// The machine: up to so many steps of a term, made in an arena. The term is loaded, turned, and written back.
#![tactic(auto)]

ghost use Rattle.std.specs.Prelude.{◌≡◌, ◌≤◌, true};
ghost use Rattle.cells.specs.Cell.{cell_limit};
ghost use Rattle.turning.specs.Turning.{Turnable};
ghost use Rattle.machine.specs.Advancing.{made_of, Runnable, Usable, Advanced, Startable, Stopped};

use cells::CELL_LIMIT;
use emitting::{Place, unload};
use loading::load;
use turning::{State, turn};

// An arena has at least so many cells.
const CELLS_LEAST: usize = 256;

// How many steps were made, the size of the term reached, and whether the machine stopped with a part of it before it.
// Kept: `left` is a field, since steps and size count either way.
#[derive(Clone, Copy)]
pub struct Made {
    pub steps: u64,
    pub size: usize,
    pub left: bool,
}

// Turns, until one is the last or the arena is as full as it may be.
fn turns(cells: &mut [u64], area: &mut [u8], counts: &mut [u32], room: usize, first: State) -> State
    requires { Startable room cells.old area.old counts.old first }
    ensures { (p : Turnable room cells.old area.old counts.old first)
        → Stopped room p.first p.used p.most cells.new area.new counts.new result }
{
    let limit = cells.len() / 8 * 5 - 3;
    let mut st = first;
    while st.go && st.place.top < limit {
        st = turn(cells, area, counts, room, st);
    }
    st
}

// Whether an arena of that many cells will do for a term of `len` letters with that much room.
fn is_usable(cells: usize, room: usize, len: usize) -> bool
    ensures { result ≡ true → (len ≤ room) × (256 ≤ cells) × (cells ≤ cell_limit) }
{
    len <= room && CELLS_LEAST <= cells && cells <= CELL_LIMIT
}

// How many steps were made of `most`, and the size of the term reached.
fn ended(st: State, most: u64) -> Made
    requires { st.steps ≤ most }
    ensures { result ≡ made_of st most }
{
    Made {
        steps: most - st.steps,
        size: st.size,
        left: st.place.left,
    }
}

// Loads the term, makes up to `most` steps, and writes back the term reached.
fn run_in(
    cells: &mut [u64],
    area: &mut [u8],
    len: usize,
    counts: &mut [u32],
    room: usize,
    most: u64,
) -> Made
    requires runnable { Runnable area.old len counts.old most }
    requires usable { Usable cells.old area.old len room }
    ensures { (p : Runnable area.old len counts.old most)
        → Advanced area.old p.term p.used most area.new counts.new result }
{
    cells[0] = 0;
    load(&area[..len], cells);
    let first = State {
        place: Place {
            top: len + 1,
            cur: len,
            list: 0,
            written: 0,
            left: true,
        },
        size: len,
        steps: most,
        go: true,
    };
    let st = turns(cells, area, counts, room, first);
    let place = st.place;
    if place.left {
        unload(cells, area, place);
        return ended(st, most);
    }
    ended(st, most)
}

// Up to `most` steps of the term in the first `len` bytes, in this arena; none where the arena is too small or too large.
pub fn run(cells: &mut [u64], area: &mut [u8], len: usize, counts: &mut [u32], most: u64) -> Made
    requires { Runnable area.old len counts.old most }
    ensures { (p : Runnable area.old len counts.old most)
        → Advanced area.old p.term p.used most area.new counts.new result }
{
    let room = area.len().min(cells.len() / 4);
    if !is_usable(cells.len(), room, len) {
        return Made {
            steps: 0,
            size: len,
            left: true,
        };
    }
    run_in(cells, area, len, counts, room, most)
}
