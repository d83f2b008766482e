// Chains of bells as rows: each row by value, in twelve places.
#![tactic(auto)]

ghost use Rattle.std.specs.Prelude.{◌≡◌, take};
ghost use Rattle.bell_rows.specs.Bytes.{bell_number, is_chain_text, bells_in};
ghost use Rattle.bell_rows.specs.Row.{most, is_row, placed};
ghost use Rattle.bell_rows.specs.Key.{key_of};

use calculus::letters;
use reading::is_bell;

// The most bells that a row has, and the places that it has in the table (specs/Row.antt).
pub const MOST: usize = 12;

// More than any bell's number (specs/Key.antt).
const BASE: u64 = 16;

// The number of a bell by its letter, 0 of any other byte.
fn bell_number(b: u8) -> u8
    ensures { result ≡ bell_number b }
{
    if b == letters::ELEVEN {
        return 11;
    }
    if b == letters::TWELVE {
        return 12;
    }
    if b < letters::FIRST_DIGIT {
        return 0;
    }
    if b > letters::LAST_DIGIT {
        return 0;
    }
    if b == letters::FIRST_DIGIT {
        return 10;
    }
    b - letters::FIRST_DIGIT
}

// Whether bytes are the text of a chain.
pub fn is_chain(term: &[u8]) -> bool
    ensures { result ≡ is_chain_text term.now }
{
    let mut rest = term;
    while let [pair, bell, behind @ ..] = rest {
        if *pair != letters::B {
            return false;
        }
        if !is_bell(*bell) {
            return false;
        }
        rest = behind;
    }
    matches!(rest, [letters::I])
}

// The row that links of a chain make: their bells, the first twelve at most, and 0 in the places behind them.
pub fn row_of(links: &[u8]) -> [u8; MOST]
    ensures { result ≡ placed (take most (bells_in links.now)) }
{
    let bells = links.len() / 2;
    let mut row = [0; MOST];
    for i in 0..MOST.min(bells) {
        row[i] = bell_number(links[2 * i + 1]);
    }
    row
}

// Whether the first places of a row hold each bell from one to so many once, and no other.
pub fn is_row(row: [u8; MOST], bells: usize) -> bool
    ensures { result ≡ is_row bells (take bells row) }
{
    if MOST < bells {
        return false;
    }
    let mut seen = [false; MOST + 1];
    for place in &row[..bells] {
        let bell = usize::from(*place);
        if bell == 0 {
            return false;
        }
        if bells < bell {
            return false;
        }
        if seen[bell] {
            return false;
        }
        seen[bell] = true;
    }
    true
}

// The number whose digits are the places of a row.
pub fn key(row: [u8; MOST]) -> u64
    ensures { result ≡ key_of row }
{
    let mut key = 0;
    for bell in &row {
        key = key * BASE + u64::from(*bell);
    }
    key
}
