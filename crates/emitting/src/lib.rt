// Letters from the arena into the area: the first letter of the part in focus, which no later step changes, or all that is left of a term.
#![tactic(auto)]

ghost use Rattle.std.specs.Prelude.{◌≡◌, true, ◌<◌, take, get_or};
ghost use Rattle.calculus.specs.Term.{Term, text, size};
ghost use Rattle.cells.specs.Cell.{letter_in};
ghost use Rattle.cells.specs.Chain.{pending_kind};
ghost use Rattle.cells.specs.Stage.{Stage};
ghost use Rattle.emitting.specs.Emitting.{Emittable, Emitted, Unloadable};
ghost use Rattle.emitting.specs.Closing.{Closable, Closed};

use calculus::letters;
use cells::{ARGUMENT, PENDING, first_in, letter_in, link, node, second_in};

// Where the machine is: the first free cell, the part in focus, the list of what stands around it and behind it, how many letters stand in
// the area already, and whether a part is left at all.
// Kept: `left` is a field and no Option around the place, which would take `written` away with it where no part is left; the contracts
// of `emit` and of a turn speak of it there too.
#[derive(Clone, Copy)]
pub struct Place {
    pub top: usize,
    pub cur: usize,
    pub list: usize,
    pub written: usize,
    pub left: bool,
}

// Writes the first letter of the part in focus into the area; the next part is its first, or, where it has none, the next term behind it.
pub fn emit(cells: &mut [u64], area: &mut [u8], place: Place) -> Place
    requires { Emittable cells.old place.top place.cur place.list area.old place.written }
    ensures emitted { (t : Term)
        → Stage cells.old place.top place.cur place.list (take place.written area.old) t
        → Emitted cells.old place.top place.cur area.old place.written t
        cells.new result.top result.cur result.list area.new result.written result.left }
    ensures bare { result.left ≡ true → letter_in (get_or cells.new result.list 0) ≡ pending_kind }
{
    let top = place.top;
    let cur = place.cur;
    let list = place.list;
    let at = place.written;
    let cell = cells[cur];
    let letter = letter_in(cell);
    area[at] = letter;
    let written = at + 1;
    if letter == letters::R {
        return Place {
            top,
            cur: first_in(cell),
            list,
            written,
            left: true,
        };
    }
    if reading::arity(letter) == Some(2) {
        let first = first_in(cell);
        let second = second_in(cell);
        link(cells, top, PENDING, second, list);
        let above = top + 1;
        return Place {
            top: above,
            cur: first,
            list: top,
            written,
            left: true,
        };
    }
    if list == 0 {
        return Place {
            top,
            cur,
            list,
            written,
            left: false,
        };
    }
    let next = cells[list];
    Place {
        top,
        cur: first_in(next),
        list: second_in(next),
        written,
        left: true,
    }
}

// The part in focus with the innermost application around it, as one part.
fn close_one(cells: &mut [u64], place: Place) -> Place
    requires closable { Closable cells.old place.top place.cur place.list }
    requires framed { ¬ (letter_in (get_or cells.old place.list 0) ≡ pending_kind) }
    ensures closed { Closed cells.old place.top place.cur place.list cells.new result.top result.cur result.list }
    ensures nearer { (result.list < place.list) × (result.written ≡ place.written) }
{
    let top = place.top;
    let cur = place.cur;
    let list = place.list;
    let frame = cells[list];
    let other = first_in(frame);
    let rest = second_in(frame);
    let written = place.written;
    let above = top + 1;
    if letter_in(frame) == ARGUMENT {
        node(cells, top, letters::STOP, cur, other);
        return Place {
            top: above,
            cur: top,
            list: rest,
            written,
            left: true,
        };
    }
    node(cells, top, letters::STOP, other, cur);
    Place {
        top: above,
        cur: top,
        list: rest,
        written,
        left: true,
    }
}

// The part in focus with all applications around it.
fn close(cells: &mut [u64], place: Place) -> Place
    requires { Closable cells.old place.top place.cur place.list }
    ensures closed { Closed cells.old place.top place.cur place.list cells.new result.top result.cur result.list }
    ensures bare { (letter_in (get_or cells.new result.list 0) ≡ pending_kind) × (result.written ≡ place.written) }
{
    let mut now = place;
    let list = place.list;
    let mut kind = letter_in(cells[list]);
    while kind != PENDING {
        now = close_one(cells, now);
        let list = now.list;
        kind = letter_in(cells[list]);
    }
    now
}

// Writes all that is left of the term into the area.
pub fn unload(cells: &mut [u64], area: &mut [u8], place: Place)
    requires { Unloadable cells.old place.top place.cur place.list area.old place.written }
    ensures { (t : Term)
        → Stage cells.old place.top place.cur place.list (take place.written area.old) t
        → take (size t) area.new ≡ text t }
{
    let mut now = close(cells, place);
    let mut left = true;
    while left {
        now = emit(cells, area, now);
        left = now.left;
    }
}
