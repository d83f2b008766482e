// Stores of catalogues: the test whether a store is one that entries leave, and the search for a result. Both are total.
#![tactic(auto)]

ghost use Rattle.std.specs.Prelude.{◌≡◌, ◌≤◌};
ghost use Rattle.slices.specs.Same.{same};
ghost use Rattle.entries.specs.Catalogue.{entry_limit, letter_limit};
ghost use Rattle.stores.specs.Search.{size_at, is_at, number_in, numbered, is_result, follows};
ghost use Rattle.stores.specs.Kept.{KeptAs};

use entries::{ENTRY_LIMIT, ENTRY_SIZE, LETTER_LIMIT, STORE_SIZE, TEXTS_AT};
use fingerprints::fingerprint;
use slices::{cut, is_zeros};
use words::word_at;

// How many results a catalogue has, and how many letters they have together.
#[derive(Clone, Copy)]
pub struct Kept {
    pub count: usize,
    pub used: usize,
}

// The size of the result with that index, 0 where there is none.
// Kept: the store itself says 0 where an entry is not used, so an `Option` would have two words for none.
fn size_at(store: &[u8], entry: usize) -> usize
    ensures { result ≡ size_at entry store.now }
{
    if entry < ENTRY_LIMIT {
        // Kept: no `From` goes from `u32` to `usize`, and `as` is proved to lose nothing.
        return word_at(store, ENTRY_SIZE * entry + 4) as usize;
    }
    0
}

// Whether two slices hold the same bytes. Of two of one length every byte is looked at, so that the compiler looks at many at once.
fn same_bytes(a: &[u8], b: &[u8]) -> bool
    ensures { result ≡ same a.now b.now }
{
    if a.len() != b.len() {
        return false;
    }
    let mut equal = true;
    for (x, y) in a.iter().zip(b) {
        if x != y {
            equal = false;
        }
    }
    equal
}

// Whether the result with that index, whose text stands between these two places, has this fingerprint and these bytes.
fn is_at(store: &[u8], entry: usize, start: usize, end: usize, res: &[u8], print: u32) -> bool
    requires { (entry ≤ entry_limit) × (start ≤ letter_limit) × (end ≤ letter_limit) }
    ensures { result ≡ is_at entry start end store.now res.now print }
{
    if word_at(store, ENTRY_SIZE * entry) != print {
        return false;
    }
    same_bytes(cut(store, TEXTS_AT + start, TEXTS_AT + end), res)
}

// The number of a result among the first so many, which have so many letters; none where it is not there. Those with another fingerprint
// are passed over, and of the others all bytes are compared.
pub fn number_of(store: &[u8], kept: Kept, res: &[u8], print: u32) -> Option<usize>
    ensures { result ≡ numbered (number_in kept.count kept.used store.now res.now print) }
{
    if ENTRY_LIMIT < kept.count {
        return None;
    }
    if LETTER_LIMIT < kept.used {
        return None;
    }
    let mut end = kept.used;
    for entry in (0..kept.count).rev() {
        let start = end.saturating_sub(size_at(store, entry));
        if is_at(store, entry, start, end, res, print) {
            return Some(entry + 1);
        }
        end = start;
    }
    None
}

// Whether bytes are the text of a normal term.
fn is_result(bytes: &[u8]) -> bool
    ensures { result ≡ is_result bytes.now }
{
    if reading::read(bytes).is_err() {
        return false;
    }
    !reading::has_stop(bytes)
}

// Whether an entry with that size could have been made behind so many results with so many letters.
fn may_follow(store: &[u8], kept: Kept, size: usize) -> bool
    requires { (kept.count ≤ entry_limit) × (kept.used ≤ letter_limit) }
    ensures { result ≡ follows kept.count kept.used size store.now }
{
    if LETTER_LIMIT - kept.used < size {
        return false;
    }
    let result = cut(store, TEXTS_AT + kept.used, TEXTS_AT + kept.used + size);
    if !is_result(result) {
        return false;
    }
    let print = fingerprint(result);
    if word_at(store, ENTRY_SIZE * kept.count) != print {
        return false;
    }
    number_of(store, kept, result, print).is_none()
}

// What the store keeps, if it is one that entries leave: result by result, each must be one that could be entered behind those before it,
// and zeros must stand behind the last.
pub fn keeps(store: &[u8]) -> Option<Kept>
    ensures { KeptAs store.now result }
{
    if store.len() < STORE_SIZE {
        return None;
    }
    let mut kept = Kept { count: 0, used: 0 };
    let mut size = size_at(store, 0);
    // Kept: a `while`, since each turn goes on by the size that the last one read.
    while size != 0 {
        if !may_follow(store, kept, size) {
            return None;
        }
        kept = Kept {
            count: kept.count + 1,
            used: kept.used + size,
        };
        size = size_at(store, kept.count);
    }
    if !is_zeros(cut(store, ENTRY_SIZE * kept.count, TEXTS_AT)) {
        return None;
    }
    if !is_zeros(cut(store, TEXTS_AT + kept.used, STORE_SIZE)) {
        return None;
    }
    Some(kept)
}
