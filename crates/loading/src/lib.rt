// Loading: a cell for each letter of a term's text, from the last to the first. The first part of a letter's term is the cell written just
// before its own; as many cells below that as it has letters is the second.
#![tactic(auto)]

ghost use Rattle.std.specs.Prelude.{◌≡◌, ◌+◌, length, List};
ghost use Rattle.calculus.specs.Term.{Term, text};
ghost use Rattle.calculus.specs.Parse.{Item};
ghost use Rattle.cells.specs.Cell.{Kept};
ghost use Rattle.cells.specs.Stands.{Stands};
ghost use Rattle.loading.specs.Loading.{Loadable};
ghost use Rattle.loading.specs.Stack.{Stacked, pushed, Turn};

use cells::{node, packed, size_in};

// Writes the cell of one letter more at the top. Its parts are the topmost terms of those that stand there.
fn load_letter(cells: &mut [u64], top: usize, letter: u8)
    requires { (terms : List Item) × Turn cells.old top letter terms }
    ensures kept { Kept top cells.old cells.new }
    ensures stacked { (terms : List Item) → Turn cells.old top letter terms
        → Stacked cells.new (top + 1) (pushed letter terms) }
{
    let first = top - 1;
    match reading::arity(letter).unwrap_or(0) {
        2 => {
            let second = first - size_in(cells[first]);
            node(cells, top, letter, first, second);
        }
        1 => {
            let size = 1 + size_in(cells[first]);
            cells[top] = packed(letter, first, 0, size);
        }
        _ => cells[top] = packed(letter, 0, 0, 1),
    }
}

// Loads the text of a term into the arena, from cell 1 on; the last cell written, whose index is the text's length, stands for the term.
pub fn load(s: &[u8], cells: &mut [u64])
    requires { Loadable s.now cells.old }
    ensures kept { Kept 1 cells.old cells.new }
    ensures loaded { (t : Term) → s.now ≡ text t
        → Stands cells.new (length s.now + 1) (length s.now) t }
{
    let mut top = 1;
    for b in s.iter().rev() {
        load_letter(cells, top, *b);
        top += 1;
    }
}
