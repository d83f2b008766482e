// The catalogue: finished results, entered in a store that the caller lends, each under a number.
#![tactic(auto)]

ghost use Rattle.std.specs.Prelude.{◌≡◌, ◌++◌, ◌+◌, ◌*◌, length};
ghost use Rattle.slices.specs.Put.{put};
ghost use Rattle.words.specs.Word.{word_of};
ghost use Rattle.entries.specs.Store.{entry_size, texts_at};
ghost use Rattle.entries.specs.Entering.{After, entering_of};
ghost use Rattle.catalogue.specs.Answer.{refusal_of, answer_of};
ghost use Rattle.catalogue.specs.Ready.{Ready, Writable};

use entries::{ENTRY_LIMIT, ENTRY_SIZE, LETTER_LIMIT, STORE_SIZE, TEXTS_AT};
use reading::{Misread, Refusal};
use stores::Kept;

// What an entry is refused for; specs/Answer.antt gives the number of each case.
#[derive(Clone, Copy)]
pub enum Refused {
    // The store has too few bytes.
    StoreTooShort,
    // The store is none that entries leave.
    NoCatalogue,
    // What reading refused, unaltered.
    Unread(Misread),
    // A full stop stands in the term.
    NotNormal,
    // The result is not there, and there is no room for it.
    Full,
}

impl Refusal for Refused {
    ghost refusal = { refusal_of };

    fn number(&self) -> u64 {
        match *self {
            Refused::StoreTooShort => 2,
            Refused::NoCatalogue => 28,
            Refused::Unread(misread) => misread.number(),
            Refused::NotNormal => 29,
            Refused::Full => 30,
        }
    }

    fn place(&self) -> usize {
        match *self {
            Refused::Unread(misread) => misread.place(),
            Refused::StoreTooShort | Refused::NoCatalogue | Refused::NotNormal | Refused::Full => 0,
        }
    }
}

// The number of an entered result, and whether it was there before.
#[derive(Clone, Copy)]
pub enum Entered {
    Known(usize),
    New(usize),
}

// Writes the entry and the text of a new result behind the others.
fn write(term: &[u8], print: u32, kept: Kept, store: &mut [u8])
    requires { Writable term.now store.old kept.count kept.used }
    ensures { store.new
        ≡ put (texts_at + kept.used) term.now
        (put (entry_size * kept.count) (word_of print ++ word_of (length term.now)) store.old) }
{
    let end = words::append_word(print, store, ENTRY_SIZE * kept.count);
    // Kept: no `From` goes from `usize` to `u32`, and `as` is proved to lose nothing.
    words::append_word(term.len() as u32, store, end);
    filling::append(term, 0, term.len(), store, TEXTS_AT + kept.used);
}

// Enters a normal term in the store of a catalogue with so many results and letters.
fn enter_result(term: &[u8], store: &mut [u8], kept: Kept) -> Result<Entered, Refused>
    requires { Ready term.now store.old kept.count kept.used }
    ensures { After.after (answer_of result) store.new ≡ entering_of term.now store.old }
{
    let print = fingerprints::fingerprint(term);
    if let Some(number) = stores::number_of(&store[..STORE_SIZE], kept, term, print) {
        return Ok(Entered::Known(number));
    }
    if ENTRY_LIMIT <= kept.count {
        return Err(Refused::Full);
    }
    if LETTER_LIMIT - kept.used < term.len() {
        return Err(Refused::Full);
    }
    write(term, print, kept, store);
    Ok(Entered::New(kept.count + 1))
}

// Enters a finished result in the catalogue that the store keeps. A refusal, and a result that is known, leave the store as it is.
pub fn enter(term: &[u8], store: &mut [u8]) -> Result<Entered, Refused>
    ensures { After.after (answer_of result) store.new ≡ entering_of term.now store.old }
{
    if store.len() < STORE_SIZE {
        return Err(Refused::StoreTooShort);
    }
    let Some(kept) = stores::keeps(&store[..STORE_SIZE]) else {
        return Err(Refused::NoCatalogue);
    };
    let reading = reading::read(term);
    let Ok(_) = reading else {
        return Err(Refused::Unread(reading.unwrap_err()));
    };
    if reading::has_stop(term) {
        return Err(Refused::NotNormal);
    }
    enter_result(term, store, kept)
}
