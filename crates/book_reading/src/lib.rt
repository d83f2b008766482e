// Reading a book: the whole of it, line by line, before any line is played.
#![tactic(auto)]

ghost use Rattle.std.specs.Prelude.{◌≡◌, []};
ghost use Rattle.slices.specs.Split.{line_feed, lines, last_byte};
ghost use Rattle.books.specs.Book.{book_from, book_of};
ghost use Rattle.book_reading.specs.Answer.{refusal_of, answer_of, keys_in};
ghost use Rattle.book_reading.specs.Table.{count_of, table_of};

use book_lines::{Fault, check_line};
use book_names::find_from;
use reading::Refusal;

// What a book is refused for; specs/Answer.antt gives the number and the line of each case.
#[derive(Clone, Copy)]
pub enum Refused {
    // The book is over 65,536 bytes.
    TooLong,
    // The book is empty.
    Empty,
    // The last byte is no line feed.
    NoLineEnd,
    // What is wrong with the first bad line, and which that is.
    BadLine(Fault, usize),
}

impl Refusal for Refused {
    ghost refusal = { refusal_of };

    fn number(&self) -> u64 {
        match *self {
            Refused::TooLong => 10,
            Refused::Empty => 11,
            Refused::NoLineEnd => 12,
            Refused::BadLine(fault, _) => fault.number(),
        }
    }

    fn place(&self) -> usize {
        match *self {
            Refused::TooLong => 0,
            Refused::Empty => 0,
            Refused::NoLineEnd => 0,
            Refused::BadLine(_, line) => line,
        }
    }
}

// The names of a book's lines: how many lines there are, and the numbers of their names, with zeros behind them.
#[derive(Drop)]
pub struct Names {
    pub count: usize,
    pub keys: [u64; books::LINE_LIMIT],
}

// Line by line: refuses the first bad line.
fn read_lines(book: &[u8]) -> Result<Names, Refused>
    requires { last_byte book.now ≡ line_feed }
    ensures { (answer_of result ≡ count_of (book_from [] (lines book.now)))
        × (keys_in result ≡ table_of (book_from [] (lines book.now))) }
{
    let mut keys = [0u64; books::LINE_LIMIT];
    let mut count: usize = 0;
    let mut at = 0;
    // Kept: a `while`, since each turn goes on behind a line.
    while at < book.len() {
        let end = find_from(book, slices::LINE_FEED, at);
        let body = slices::cut(book, at, end);
        if let Err(fault) = check_line(body, &keys[..count]) {
            return Err(Refused::BadLine(fault, count + 1));
        }
        keys[count] = book_names::key(slices::cut(body, 0, slices::find(body, slices::TAB)));
        count += 1;
        at = end + 1;
    }
    Ok(Names { count, keys })
}

// Reads a book of any bytes.
pub fn read_book(book: &[u8]) -> Result<Names, Refused>
    ensures { (answer_of result ≡ count_of (book_of book.now)) × (keys_in result ≡ table_of (book_of book.now)) }
{
    if books::BOOK_LIMIT < book.len() {
        return Err(Refused::TooLong);
    }
    if book.len() == 0 {
        return Err(Refused::Empty);
    }
    if slices::byte_at(book, book.len() - 1) != slices::LINE_FEED {
        return Err(Refused::NoLineEnd);
    }
    read_lines(book)
}
