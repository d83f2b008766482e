// Playing one line of a book: the results of earlier lines in place of its uses, then the line is finished, and its result is put behind
// theirs.
#![tactic(auto)]

ghost use Rattle.std.specs.Prelude.{◌≡◌, length, List};
ghost use Rattle.books.specs.Line.{Line};
ghost use Rattle.books.specs.Play.{Result, Play, further};
ghost use Rattle.line_playing.specs.Shelf.{Lent, Shelved, Playable, LineLeft};

use finishing::Outcome;
use replacing::Shelf;

// What one line came to.
#[derive(Clone, Copy)]
pub enum LineEnd {
    // It finished, and its result has that size.
    Finished(usize),
    // The fuel was spent.
    Spent,
    // The area or the store had no room.
    NoRoom,
}

// Plays one line, with the results of earlier lines in the first `used` bytes of the store. Its own goes behind them, and stays in the
// area.
pub fn play_line(
    piece: &[u8],
    shelf: Shelf<'_>,
    area: &mut [u8],
    work: &mut [u8],
    store: &mut [u8],
    used: usize,
    fuel: u64,
) -> LineEnd
    ensures { (earlier : List Line) (results : List Result) (l : Line)
        → Lent area.old work.old fuel
        → Shelved shelf.entry.keys.now shelf.entry.ends.now store.old used earlier results → Playable piece.now earlier l
        → LineLeft result (further fuel (length area.old) l (Play.finished results)) l results used area.new store.new }
{
    let Some(len) = replacing::replace(piece, shelf, store, area) else {
        return LineEnd::NoRoom;
    };
    let Ok(ran) = finishing::finish(area, len, work, fuel) else {
        return LineEnd::Spent;
    };
    let size = ran.size;
    match ran.outcome {
        Outcome::Finished => {}
        Outcome::Spent => return LineEnd::Spent,
        Outcome::NoRoom => return LineEnd::NoRoom,
    }
    if store.len() < size {
        return LineEnd::NoRoom;
    }
    if store.len() - size < used {
        return LineEnd::NoRoom;
    }
    filling::append(area, 0, size, store, used);
    LineEnd::Finished(size)
}
