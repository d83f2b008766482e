// The texts of small terms in byte order: how many there are of a length, and each of them by its index.
#![tactic(auto)]

ghost use Rattle.std.specs.Prelude.{◌≡◌, suc, ◌≤◌, ◌<◌, length};
ghost use Rattle.small_texts.specs.Texts.{largest_size, text_at};
ghost use Rattle.small_texts.specs.Texts.{ways as ways_of};
ghost use Rattle.small_texts.specs.Writing.{how_many, written, Chosen};

use calculus::letters::{A, B, H, I, J, R, STOP};

// The size of the largest small terms.
pub const LARGEST_SIZE: usize = 7;

// The letters that are no bells, in the order of their bytes.
const LETTERS: [u8; 7] = [STOP, A, B, H, I, J, R];

// How many texts of k terms have n letters: number k of row n.
const WAYS: [[u64; 8]; 8] = [
    [1, 0, 0, 0, 0, 0, 0, 0],
    [0, 2, 0, 0, 0, 0, 0, 0],
    [0, 2, 4, 0, 0, 0, 0, 0],
    [0, 18, 8, 8, 0, 0, 0, 0],
    [0, 50, 76, 24, 16, 0, 0, 0],
    [0, 354, 272, 240, 64, 32, 0, 0],
    [0, 1442, 1940, 1040, 672, 160, 64, 0],
    [0, 9202, 8984, 7608, 3392, 1760, 384, 128],
];

// How many texts of k terms have n letters.
fn ways(k: usize, n: usize) -> u64
    requires { n ≤ largest_size }
    ensures { result ≡ ways_of k n }
{
    WAYS[n].get(k).copied().unwrap_or(0)
}

// How many small terms have n letters.
pub fn how_many(n: usize) -> u64
    ensures { result ≡ how_many n }
{
    if LARGEST_SIZE < n {
        return 0;
    }
    ways(1, n)
}

// A letter of a text, how many terms are owed behind it, and the index of what stands there among all that can.
#[derive(Clone, Copy)]
struct Choice {
    letter: u8,
    owing: usize,
    index: u64,
}

// The first letter of the text with that index among those of `owing` terms with `rest` letters and one more.
fn choose(owing: usize, rest: usize, index: u64) -> Choice
    requires rest_lt_largest_size { rest < largest_size }
    requires index_bound { index < ways_of owing (suc rest) }
    ensures { Chosen owing rest index result.letter result.owing result.index }
{
    let others = owing - 1;
    let mut left = index;
    for b in LETTERS {
        let owed = others + reading::arity(b).unwrap();
        let begun = ways(owed, rest);
        if left < begun {
            return Choice {
                letter: b,
                owing: owed,
                index: left,
            };
        }
        left -= begun;
    }
    unreachable!()
}

// Writes the text with that index, from 0, among those of one term as long as the slice.
fn write_letters(text: &mut [u8], index: u64)
    requires text_len_bound { length text.old ≤ largest_size }
    requires index_bound { index < ways_of 1 (length text.old) }
    ensures { text.new ≡ text_at (length text.old) index }
{
    let n = text.len();
    let mut owing = 1;
    let mut left = index;
    for (at, b) in text.iter_mut().enumerate() {
        let choice = choose(owing, n - at - 1, left);
        *b = choice.letter;
        owing = choice.owing;
        left = choice.index;
    }
}

// Writes the text of the small term with that index, from 0, among those as long as the slice. Where there is none, the slice stays.
pub fn write_text(text: &mut [u8], index: u64)
    ensures { text.new ≡ written index text.old }
{
    if how_many(text.len()) <= index {
        return;
    }
    write_letters(text, index);
}
