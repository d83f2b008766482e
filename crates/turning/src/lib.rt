// A turn of the machine: it keeps its place in the term from one step to the next, and looks at each part once on the way to it. A turn
// writes a letter that is final, looks into an application, or makes a step.
#![tactic(auto)]

ghost use Rattle.std.specs.Prelude.{◌≡◌, ℕ, ◌<◌, List, length, get_or, set, take};
ghost use Rattle.calculus.specs.Letter.{Letter, byte};
ghost use Rattle.calculus.specs.Term.{Term};
ghost use Rattle.cells.specs.Cell.{cell_limit, letter_in, packed, Free};
ghost use Rattle.cells.specs.Chain.{pending_kind};
ghost use Rattle.cells.specs.Stage.{Stage};
ghost use Rattle.emitting.specs.Emitting.{Emittable, Emitted};
ghost use Rattle.turning.specs.Running.{Focused};
ghost use Rattle.turning.specs.Turning.{Both, Focusable, Appliable, Fireable, Turnable, Turned, TurnedFrom, halt, descended};

use calculus::letters;
use cells::{ARGUMENT, FUNCTION, PENDING, first_in, letter_in, link, second_in, size_in};
use contracting::contract;
use emitting::{Place, emit};
use tallies::count_use;

// The machine's place, the size of the term reached, how many steps are left, and whether there is another turn.
// Kept: `go` is a field and no Option around the state, since the state counts where there is no other turn: it says what was reached.
#[derive(Clone, Copy)]
pub struct State {
    pub place: Place,
    pub size: usize,
    pub steps: u64,
    pub go: bool,
}

// The application in focus: the cells of its function and of its argument, and the list of what stands around it and behind it.
#[derive(Clone, Copy)]
pub struct Focus {
    pub function: usize,
    pub argument: usize,
    pub rest: usize,
}

// The application in focus: the part itself, or the innermost application around it.
fn application(cells: &[u64], cur: usize, list: usize) -> Focus
    requires { Focusable cells.now cur list }
    ensures { (top : ℕ) (front : List ℕ) (t : Term) → Stage cells.now top cur list front t
        → Focused cells.now top result.function result.argument result.rest front t }
{
    let cell = cells[cur];
    if letter_in(cell) == letters::STOP {
        return Focus {
            function: first_in(cell),
            argument: second_in(cell),
            rest: list,
        };
    }
    let frame = cells[list];
    if letter_in(frame) == ARGUMENT {
        return Focus {
            function: cur,
            argument: first_in(frame),
            rest: second_in(frame),
        };
    }
    Focus {
        function: first_in(frame),
        argument: cur,
        rest: second_in(frame),
    }
}

// No turn after this one.
fn halted(st: State) -> State
    ensures { result ≡ halt st }
{
    State { go: false, ..st }
}

// The part at `cur` comes into focus; what it is a part of goes into the list.
fn descend(cells: &mut [u64], st: State, kind: u8, term: usize, rest: usize, cur: usize) -> State
    requires free { Free cells.old st.place.top }
    requires short { (term < cell_limit) × (rest < cell_limit) }
    ensures linked { cells.new ≡ set cells.old st.place.top (packed kind term rest 0) }
    ensures value { result ≡ descended st cur }
{
    let top = st.place.top;
    link(cells, top, kind, term, rest);
    State {
        place: Place {
            top: top + 1,
            cur,
            list: top,
            written: st.place.written,
            left: true,
        },
        size: st.size,
        steps: st.steps,
        go: true,
    }
}

// Applies the rule for the application in focus, if there is room for what it gives.
fn fire(cells: &mut [u64], counts: &mut [u32], room: usize, st: State, f: Focus) -> State
    requires { Fireable room cells.old counts.old st f }
    ensures { (p : Appliable room cells.old counts.old st f)
        → TurnedFrom p cells.new counts.new result }
{
    let function = f.function;
    let argument = f.argument;
    let redex = 1 + size_in(cells[function]) + size_in(cells[argument]);
    let c = contract(cells, st.place.top, function, argument);
    let result = c.result;
    let size = st.size + size_in(cells[result]) - redex;
    if room < size {
        return halted(st);
    }
    count_use(counts, c.rule);
    State {
        place: Place {
            top: c.top,
            cur: result,
            list: f.rest,
            written: st.place.written,
            left: true,
        },
        size,
        steps: st.steps - 1,
        go: true,
    }
}

// Whether a function is a pair and its argument an application, into which the machine looks first.
fn is_pair_on_application(cells: &[u64], function: usize, argument: usize) -> bool
    requires { (function < length cells.now) × (argument < length cells.now) }
    ensures { Both (letter_in (get_or cells.now function 0) ≡ byte Letter.B)
        (letter_in (get_or cells.now argument 0) ≡ byte Letter.stop) result }
{
    if letter_in(cells[function]) != letters::B {
        return false;
    }
    letter_in(cells[argument]) == letters::STOP
}

// Looks into the application in focus, or applies the rule for it.
fn apply(cells: &mut [u64], counts: &mut [u32], room: usize, st: State, f: Focus) -> State
    requires { Appliable room cells.old counts.old st f }
    ensures { (p : Appliable room cells.old counts.old st f)
        → TurnedFrom p cells.new counts.new result }
{
    let function = f.function;
    let argument = f.argument;
    if letter_in(cells[function]) == letters::STOP {
        return descend(cells, st, ARGUMENT, argument, f.rest, function);
    }
    if is_pair_on_application(cells, function, argument) {
        return descend(cells, st, FUNCTION, function, f.rest, argument);
    }
    if st.steps == 0 {
        return halted(st);
    }
    fire(cells, counts, room, st, f)
}

// Writes the first letter of the part, which is final.
fn shed(cells: &mut [u64], area: &mut [u8], st: State) -> State
    requires { Emittable cells.old st.place.top st.place.cur st.place.list area.old st.place.written }
    ensures emitted { (t : Term)
        → Stage cells.old st.place.top st.place.cur st.place.list (take st.place.written area.old) t
        → Emitted cells.old st.place.top st.place.cur area.old st.place.written t
        cells.new result.place.top result.place.cur result.place.list area.new result.place.written result.place.left }
    ensures others { (result.size ≡ st.size) × (result.steps ≡ st.steps) × (result.go ≡ result.place.left) }
{
    let place = emit(cells, area, st.place);
    State {
        place,
        size: st.size,
        steps: st.steps,
        go: place.left,
    }
}

// Whether the first letter of the part at `cur` is final: it is no application, and none stands around it.
fn is_final(cells: &[u64], cur: usize, list: usize) -> bool
    requires { (cur < length cells.now) × (list < length cells.now) }
    ensures { Both (¬ (letter_in (get_or cells.now cur 0) ≡ byte Letter.stop))
        (letter_in (get_or cells.now list 0) ≡ pending_kind) result }
{
    if letter_in(cells[cur]) == letters::STOP {
        return false;
    }
    letter_in(cells[list]) == PENDING
}

// One turn: a letter written, an application looked into, or a step.
pub fn turn(cells: &mut [u64], area: &mut [u8], counts: &mut [u32], room: usize, st: State) -> State
    requires { Turnable room cells.old area.old counts.old st }
    ensures { (p : Turnable room cells.old area.old counts.old st)
        → Turned room p.first p.used p.most cells.old area.old st
        cells.new area.new counts.new result }
{
    let cur = st.place.cur;
    let list = st.place.list;
    if is_final(cells, cur, list) {
        return shed(cells, area, st);
    }
    let f = application(cells, cur, list);
    apply(cells, counts, room, st, f)
}
