// Rows for the striker: a chain of bells, as rows in a table.
#![tactic(auto)]

ghost use Rattle.std.specs.Prelude.{◌≡◌, ◌*◌, ◌≤◌, ◌<◌, length, take, drop};
ghost use Rattle.slices.specs.Same.{same};
ghost use Rattle.slices.specs.Wrote.{Wrote};
ghost use Rattle.repeats.specs.Repeats.{withoutRepeats};
ghost use Rattle.bell_rows.specs.Bytes.{bells_in};
ghost use Rattle.bell_rows.specs.Row.{most, placed, laid_out};
ghost use Rattle.rows.specs.Ringing.{After, row_limit, good_rows, ringing_of};
ghost use Rattle.rows.specs.Storing.{rows_in, Chained, keys_of};
ghost use Rattle.rows.specs.Answer.{refusal_of, answer_of};

use bell_rows::{MOST, is_chain, is_row, key, row_of};
use filling::{append, zero_from};
use reading::{Misread, Refusal};
use slices::cut;

// The fewest bells that a row has (bell_rows/specs/Row.antt).
const FEWEST: usize = 2;

// The most rows of a piece (specs/Ringing.antt).
const ROW_LIMIT: usize = 1000;

// How many rows the table now holds, and how many different ones.
#[derive(Clone, Copy)]
pub struct Rung {
    pub rows: usize,
    pub different: usize,
}

// What a piece is refused for; specs/Answer.antt gives the number and the place of each case.
#[derive(Clone, Copy)]
pub enum Refused {
    // What reading refused, unaltered.
    Unread(Misread),
    // Rows have no such number of bells, or the term is no chain.
    NoChain,
    // The bells are no whole number of rows, or too many rows, or more than the table holds.
    NoTable,
    // The number of the first row that does not hold each bell once.
    BadRow(usize),
}

impl Refusal for Refused {
    ghost refusal = { refusal_of };

    fn number(&self) -> u64 {
        match *self {
            Refused::Unread(misread) => misread.number(),
            Refused::NoChain => 20,
            Refused::NoTable => 21,
            Refused::BadRow(_) => 22,
        }
    }

    fn place(&self) -> usize {
        match *self {
            Refused::Unread(misread) => misread.place(),
            Refused::NoChain | Refused::NoTable => 0,
            Refused::BadRow(number) => number,
        }
    }
}

// The text of a chain whose bells are so many rows.
#[derive(Clone, Copy)]
struct Piece<'a> {
    chain: &'a [u8],
    bells: usize,
    count: usize,
    ghost few: { bells ≤ most },
    ghost whole: { length (bells_in chain.now) ≡ count * bells },
}

impl Piece<'_> {
    // The row at an index, in its places.
    fn row(&self, i: usize) -> [u8; MOST]
        requires { i < self.now.count }
        ensures { result ≡ placed (take self.now.bells (drop (i * self.now.bells) (bells_in self.now.chain.now))) }
    {
        let width = 2 * self.bells;
        row_of(cut(self.chain, i * width, i * width + width))
    }

    // How many rows stand in front of the first bad one; all of them where there is none.
    fn good(&self) -> usize
        ensures { result ≡ good_rows self.now.bells (rows_in self.now.bells self.now.count self.now.chain.now) }
    {
        for i in 0..self.count {
            if !is_row(self.row(i), self.bells) {
                return i;
            }
        }
        self.count
    }

    // Stores the rows in the table, one behind the other, and the key of each.
    fn store(&self, table: &mut [u8], keys: &mut [u64])
        requires room { self.now.count * most ≤ length table.old }
        requires keyed { self.now.count ≤ length keys.old }
        ensures wrote { let rows = rows_in self.now.bells self.now.count self.now.chain.now in
            Wrote 0 (self.now.count * most) (laid_out rows) table.old table.new }
        ensures keys_after { take self.now.count keys.new ≡ keys_of (rows_in self.now.bells self.now.count self.now.chain.now) }
    {
        for i in 0..self.count {
            let row = self.row(i);
            append(&row, 0, MOST, table, i * MOST);
            keys[i] = key(row);
        }
    }

    // Stores the rows in the table, and answers how many different ones there are.
    fn lay(&self, table: &mut [u8]) -> usize
        requires limited { self.now.count ≤ row_limit }
        requires room { self.now.count * most ≤ length table.old }
        ensures wrote { let rows = rows_in self.now.bells self.now.count self.now.chain.now in
            Wrote 0 (self.now.count * most) (laid_out rows) table.old table.new }
        ensures counted { result ≡ length (withoutRepeats same (rows_in self.now.bells self.now.count self.now.chain.now)) }
    {
        let mut keys = [0u64; ROW_LIMIT];
        self.store(table, &mut keys);
        repeats::different(&keys[..self.count])
    }
}

// The rows of a chain of that many bells, into the table.
fn ring_chain(chain: &[u8], bells: usize, struck: usize, table: &mut [u8]) -> Result<Rung, Refused>
    requires { Chained chain.now bells struck }
    ensures { After.after (answer_of result) table.new ≡ ringing_of chain.now bells table.old }
{
    if struck % bells != 0 {
        return Err(Refused::NoTable);
    }
    let count = struck / bells;
    if ROW_LIMIT < count {
        return Err(Refused::NoTable);
    }
    if table.len() / MOST < count {
        return Err(Refused::NoTable);
    }
    let piece = Piece {
        chain,
        bells,
        count,
    };
    let good = piece.good();
    if good < count {
        return Err(Refused::BadRow(good + 1));
    }
    let different = piece.lay(table);
    zero_from(table, count * MOST);
    Ok(Rung {
        rows: count,
        different,
    })
}

// The rows of a piece, into the table, with zeros behind them. A refusal leaves the table as it is.
pub fn ring(term: &[u8], bells: usize, table: &mut [u8]) -> Result<Rung, Refused>
    ensures { After.after (answer_of result) table.new ≡ ringing_of term.now bells table.old }
{
    let reading = reading::read(term);
    let Ok(size) = reading else {
        return Err(Refused::Unread(reading.unwrap_err()));
    };
    if bells < FEWEST {
        return Err(Refused::NoChain);
    }
    if MOST < bells {
        return Err(Refused::NoChain);
    }
    if !is_chain(term) {
        return Err(Refused::NoChain);
    }
    ring_chain(term, bells, size / 2, table)
}
