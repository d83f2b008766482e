// The text of a piece with each use replaced by the result that its name stands for.
#![tactic(auto)]

ghost use Rattle.std.specs.Prelude.{◌≡◌};
ghost use Rattle.replacing.specs.Spelled.{held_by, spelled_in};
ghost use Rattle.replacing.specs.Leaves.{Leaves};

use book_names::find_from;

// Where the results of earlier lines stand in the store: the numbers of the lines' names, and where each result ends, behind the 0 where
// the first begins.
#[derive(Clone, Copy)]
pub struct Shelf<'a> {
    pub keys: &'a [u64],
    pub ends: &'a [usize],
}

impl Shelf<'_> {
    // The result of the line whose name has that number.
    fn held(self, key: u64, store: &[u8]) -> &[u8]
        ensures { result.now ≡ held_by key self.entry.keys.now self.entry.ends.now store.now }
    {
        let i = book_names::index_of(self.keys, key);
        let from = self.ends.get(i).copied().unwrap_or(0);
        let to = self.ends.get(i + 1).copied().unwrap_or(0);
        slices::cut(store, from, to)
    }
}

// Writes the text to the front of the area, and answers how many bytes it has; none where it does not fit.
pub fn replace(piece: &[u8], shelf: Shelf<'_>, store: &[u8], area: &mut [u8]) -> Option<usize>
    ensures { Leaves result (spelled_in shelf.entry.keys.now shelf.entry.ends.now store.now piece.now) area.old area.new }
{
    let mut at = 0;
    let mut to = 0;
    // Kept: a `while`, since a use is passed in one turn, and a letter in one.
    while at < piece.len() {
        if piece[at] == books::OPEN {
            let end = find_from(piece, books::CLOSE, at + 1);
            let result = shelf.held(book_names::key(slices::cut(piece, at + 1, end)), store);
            if area.len() - to < result.len() {
                return None;
            }
            to = filling::append(result, 0, result.len(), area, to);
            at = end + 1;
        } else {
            if area.len() <= to {
                return None;
            }
            to = filling::append_byte(piece[at], area, to);
            at += 1;
        }
    }
    Some(to)
}
