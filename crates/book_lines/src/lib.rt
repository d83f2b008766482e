// One line of a book: what it is refused for, behind lines whose names are known by their numbers.
#![tactic(auto)]

ghost use Rattle.std.specs.Prelude.{◌≡◌, ◌&&◌, ltb};
ghost use Rattle.books.specs.Name.{is_small, is_name};
ghost use Rattle.books.specs.Book.{line_limit};
ghost use Rattle.book_lines.specs.Scan.{is_piece};
ghost use Rattle.book_lines.specs.Uses.{uses_in, all_in};
ghost use Rattle.book_lines.specs.Fault.{fault_of};
ghost use Rattle.book_lines.specs.Number.{refusal_of, number_of};

use book_names::{find_from, is_in, key};
use reading::Refusal;

// What a line is refused for; specs/Number.antt gives the number of each case.
#[derive(Clone, Copy)]
pub enum Fault {
    // It is no name, tab and piece, or one line too many.
    Malformed,
    // An earlier line has its name.
    NameGiven,
    // It uses a name that no earlier line has.
    NameUnknown,
}

impl Refusal for Fault {
    ghost refusal = { refusal_of };

    fn number(&self) -> u64 {
        match *self {
            Fault::Malformed => 25,
            Fault::NameGiven => 26,
            Fault::NameUnknown => 27,
        }
    }

    fn place(&self) -> usize {
        0
    }
}

fn is_small(b: u8) -> bool
    ensures { result ≡ is_small b }
{
    (books::FIRST_SMALL..=books::LAST_SMALL).contains(&b)
}

// Whether bytes are a name.
#[tactic(auto, using(crate::proofs::Naming::no_name))]
pub fn is_name(s: &[u8]) -> bool
    ensures { result ≡ is_name s.now }
{
    if s.len() == 0 {
        return false;
    }
    if books::NAME_LIMIT < s.len() {
        return false;
    }
    s.iter().all(|b| is_small(*b))
}

// Whether bytes are the text of a piece.
pub fn is_piece(s: &[u8]) -> bool
    ensures { result ≡ is_piece s.now }
{
    let mut owed: usize = 1;
    let mut at = 0;
    // Kept: a `while`, since a use is passed in one turn, and a letter in one.
    while at < s.len() {
        if owed == 0 {
            return false;
        }
        if s[at] == books::OPEN {
            let end = find_from(s, books::CLOSE, at + 1);
            if s.len() <= end {
                return false;
            }
            if !is_name(&s[at + 1..end]) {
                return false;
            }
            owed -= 1;
            at = end + 1;
        } else {
            let Some(parts) = reading::arity(s[at]) else {
                return false;
            };
            owed = owed - 1 + parts;
            at += 1;
        }
    }
    owed == 0
}

// Whether the number of every name that the piece uses is among these.
pub fn uses_given(piece: &[u8], keys: &[u64]) -> bool
    ensures { result ≡ all_in (uses_in piece.now) keys.now }
{
    let mut at = find_from(piece, books::OPEN, 0);
    // Kept: a `while`, since each turn goes on behind a use.
    while at < piece.len() {
        let end = find_from(piece, books::CLOSE, at + 1);
        if !is_in(keys, key(slices::cut(piece, at + 1, end))) {
            return false;
        }
        at = find_from(piece, books::OPEN, end);
    }
    true
}

// Whether a line of this name and piece may stand behind so many.
fn is_line(count: usize, name: &[u8], piece: &[u8]) -> bool
    ensures { result ≡ ltb count line_limit && (is_name name.now && is_piece piece.now) }
{
    count < books::LINE_LIMIT && is_name(name) && is_piece(piece)
}

// Refuses the line of these bytes for what is wrong with it, behind lines whose names have these numbers; without a tab its piece is empty,
// and none.
pub fn check_line(body: &[u8], keys: &[u64]) -> Result<(), Fault>
    ensures { number_of result ≡ fault_of body.now keys.now }
{
    let tab = slices::find(body, slices::TAB);
    let name = slices::cut(body, 0, tab);
    let piece = slices::cut(body, tab + 1, body.len());
    let line = is_line(keys.len(), name, piece);
    let given = is_in(keys, key(name));
    let used = uses_given(piece, keys);
    if !line {
        return Err(Fault::Malformed);
    }
    if given {
        return Err(Fault::NameGiven);
    }
    if !used {
        return Err(Fault::NameUnknown);
    }
    Ok(())
}
