// Playing a book: every line is checked before any line runs; then each is finished in turn, with the results of earlier lines in place of
// its uses.
#![tactic(auto)]

ghost use Rattle.std.specs.Prelude.{◌≡◌, ◌-◌, ◌≤◌, length, take, replicate, List, ◌++◌};
ghost use Rattle.reading.specs.Area.{cleared};
ghost use Rattle.books.specs.Playing.{After, emptied, playing_of};
ghost use Rattle.book_lines.specs.Fault.{piece_field};
ghost use Rattle.book.specs.Answer.{refusal_of, played_of, answer_of};
ghost use Rattle.books.specs.Line.{Line};
ghost use Rattle.books.specs.Book.{book_of};
ghost use Rattle.books.specs.Play.{store_size, play as played};
ghost use Rattle.reading.specs.Reply.{Reply};
ghost use Rattle.book.specs.Lines.{BookReady, LinesReady, PlayLeft};

use book_names::find_from;
use finishing::Outcome;
use line_playing::LineEnd;
use reading::Refusal;
use replacing::Shelf;

// What playing refuses of a call; specs/Answer.antt gives the number and the line of each case.
#[derive(Clone, Copy)]
pub enum Refused {
    // The term area is over 16,384 bytes.
    AreaTooLong,
    // The work area is shorter than the term area.
    WorkTooShort,
    // The store has too few bytes.
    StoreTooShort,
    // The fuel is over 1,000,000.
    FuelTooHigh,
    // What was refused of the book, unaltered.
    Unread(book_reading::Refused),
}

impl Refusal for Refused {
    ghost refusal = { refusal_of };

    fn number(&self) -> u64 {
        match *self {
            Refused::AreaTooLong => 1,
            Refused::WorkTooShort | Refused::StoreTooShort => 2,
            Refused::FuelTooHigh => 4,
            Refused::Unread(unread) => unread.number(),
        }
    }

    fn place(&self) -> usize {
        match *self {
            Refused::AreaTooLong
            | Refused::WorkTooShort
            | Refused::StoreTooShort
            | Refused::FuelTooHigh => 0,
            Refused::Unread(unread) => unread.place(),
        }
    }
}

// What all lines came to: the outcome and the number of the last one played, and the size of its result, 0 where there is none.
#[derive(Clone, Copy)]
pub struct Played {
    pub outcome: Outcome,
    pub line: usize,
    pub size: usize,
}

// What stands behind the first tab of a line.
fn piece_of(body: &[u8]) -> &[u8]
    ensures { result.now ≡ piece_field body.now }
{
    let tab = slices::find(body, slices::TAB);
    if body.len() <= tab {
        return slices::cut(body, tab, tab);
    }
    slices::cut(body, tab + 1, body.len())
}

// What the lines came to where one did not finish.
fn stopped(outcome: Outcome, line: usize) -> Played
    ensures { (result.outcome ≡ outcome) × (result.line ≡ line) × (result.size ≡ 0) }
{
    Played {
        outcome,
        line,
        size: 0,
    }
}

// Plays the lines of a book, up to the first that does not finish.
// Kept: what is lent goes down part by part, since in one struct each contract would say besides that its three borrows stay the same ones.
fn play_lines(
    book: &[u8],
    keys: &[u64],
    area: &mut [u8],
    work: &mut [u8],
    store: &mut [u8],
    fuel: u64,
) -> Played
    requires { LinesReady book.now keys.now area.old work.old store.old fuel }
    ensures { (lines : List Line) → book_of book.now ≡ Reply.answered lines
        → PlayLeft (played fuel (length area.old) lines) result.outcome result.line result.size area.new }
{
    let mut ends = [0usize; books::LINE_LIMIT + 1];
    let mut count: usize = 0;
    let mut used: usize = 0;
    let mut size: usize = 0;
    let mut at = 0;
    // Kept: a `while`, since each turn goes on behind the line that it played.
    while at < book.len() {
        let feed = find_from(book, slices::LINE_FEED, at);
        let end = line_playing::play_line(
            piece_of(slices::cut(book, at, feed)),
            Shelf {
                keys: &keys[..count],
                ends: &ends[..count + 1],
            },
            area,
            work,
            store,
            used,
            fuel,
        );
        count += 1;
        size = match end {
            LineEnd::Finished(size) => size,
            LineEnd::Spent => return stopped(Outcome::Spent, count),
            LineEnd::NoRoom => return stopped(Outcome::NoRoom, count),
        };
        used += size;
        ends[count] = used;
        at = feed + 1;
    }
    Played {
        outcome: Outcome::Finished,
        line: count,
        size,
    }
}

// Zeros behind the first `size` bytes of the area, in the work area and in the store.
fn clear(area: &mut [u8], size: usize, work: &mut [u8], store: &mut [u8])
    requires { store_size ≤ length store.old }
    ensures { (area.new ≡ take size area.old ++ replicate (length area.old - size) 0)
        × (work.new ≡ cleared work.old) × (store.new ≡ emptied store.old) }
{
    filling::clear(area, size, work);
    filling::zero_from(&mut store[..books::STORE_SIZE], 0);
}

// Plays the lines of a book that was read, with as much of the work area as the area is long, and the store's first bytes.
fn play_lent(
    book: &[u8],
    keys: &[u64],
    area: &mut [u8],
    work: &mut [u8],
    store: &mut [u8],
    fuel: u64,
) -> Played
    requires { BookReady book.now keys.now area.old work.old store.old fuel }
    ensures play_left { (lines : List Line) → book_of book.now ≡ Reply.answered lines
        → PlayLeft (played fuel (length area.old) lines) result.outcome result.line result.size area.new }
    ensures behind { emptied store.new ≡ emptied store.old }
{
    let n = area.len();
    play_lines(
        book,
        keys,
        area,
        &mut work[..n],
        &mut store[..books::STORE_SIZE],
        fuel,
    )
}

// Plays the lines of a book that was read, and leaves zeros behind the result, in the work area and in the store.
fn play_read(
    book: &[u8],
    keys: &[u64],
    area: &mut [u8],
    work: &mut [u8],
    store: &mut [u8],
    fuel: u64,
) -> Played
    requires { BookReady book.now keys.now area.old work.old store.old fuel }
    ensures { After.after (Reply.answered (played_of result)) area.new work.new store.new
        ≡ playing_of book.now area.old work.old store.old fuel }
{
    let end = play_lent(book, keys, area, work, store, fuel);
    clear(area, end.size, work, store);
    end
}

// Plays a book with the lent area, work area and store; the work area is at least as long as the area.
pub fn play(
    book: &[u8],
    area: &mut [u8],
    work: &mut [u8],
    store: &mut [u8],
    fuel: u64,
) -> Result<Played, Refused>
    ensures { After.after (answer_of result) area.new work.new store.new
        ≡ playing_of book.now area.old work.old store.old fuel }
{
    if calculus::AREA_LIMIT < area.len() {
        return Err(Refused::AreaTooLong);
    }
    if work.len() < area.len() {
        return Err(Refused::WorkTooShort);
    }
    if store.len() < books::STORE_SIZE {
        return Err(Refused::StoreTooShort);
    }
    if calculus::FUEL_LIMIT < fuel {
        return Err(Refused::FuelTooHigh);
    }
    let reading = book_reading::read_book(book);
    let Ok(names) = reading else {
        return Err(Refused::Unread(reading.unwrap_err()));
    };
    Ok(play_read(book, &names.keys, area, work, store, fuel))
}
