// Names of lines as numbers, a table of them, and the marks by which names are found.
#![tactic(auto)]

ghost use Rattle.std.specs.Prelude.{◌≡◌, ◌+◌, drop};
ghost use Rattle.slices.specs.Find.{index_of};
ghost use Rattle.book_names.specs.Key.{key_of, is_in};

// One more than the largest number of a letter, and as many numbers as seven letters have (specs/Key.antt).
const BASE: u64 = 32;

const SEVEN: u64 = 34359738368;

// The index of the first `b` from index `at` on, the length where there is none; `at` past the end.
pub fn find_from(s: &[u8], b: u8, at: usize) -> usize
    ensures { result ≡ at + index_of b (drop at s.now) }
{
    let rest = slices::cut(s, at, s.len());
    at + slices::find(rest, b)
}

// The number of a name, by which it is told from others: its letters are the digits, the first the lowest.
pub fn key(name: &[u8]) -> u64
    ensures { result ≡ key_of name.now }
{
    name.iter()
        .rev()
        .fold(0, |key, b| key % SEVEN * BASE + u64::from(*b) % BASE)
}

// The index of the first number `key`, the length where there is none.
pub fn index_of(keys: &[u64], key: u64) -> usize
    ensures { result ≡ index_of key keys.now }
{
    keys.iter().position(|k| *k == key).unwrap_or(keys.len())
}

// Whether the number `key` is among them.
pub fn is_in(keys: &[u64], key: u64) -> bool
    ensures { result ≡ is_in key keys.now }
{
    index_of(keys, key) < keys.len()
}
