// What the program that plays a book prints, as a function on bytes: no input and no output here.
#![tactic(auto)]

ghost use Rattle.std.specs.Prelude.{◌≡◌};
ghost use Rattle.slices.specs.Put.{put, behind};
ghost use Rattle.finishing.specs.Answer.{outcome_of};
ghost use Rattle.book.specs.Answer.{answer_of};
ghost use Rattle.book_answers.specs.Shown.{played_line, reply_line};
ghost use Rattle.book_answers.specs.Program.{shown_in, book_program};

use book::{Played, Refused};
use finishing::Outcome;

// The program's line for a book, put at the start of `out`; the answer is its length. Where it does not fit, `out` stays and the answer
// is 0.
pub fn answer_book(book: &[u8], out: &mut [u8]) -> usize
    ensures { (out.new ≡ put 0 (book_program book.now) out.old)
        × (result ≡ behind 0 (book_program book.now) out.old) }
{
    let mut area = [0u8; calculus::AREA_LIMIT];
    let answer = play_in(book, &mut area);
    print_playing(&answer, &area, out)
}

// Plays a book in a lent area with the most fuel; work area and store are its own.
fn play_in(book: &[u8], area: &mut [u8]) -> Result<Played, Refused>
    ensures { reply_line (answer_of result) area.new ≡ shown_in book.now area.old }
{
    let mut work = [0u8; calculus::AREA_LIMIT];
    let mut store = [0u8; books::STORE_SIZE];
    book::play(book, area, &mut work, &mut store, calculus::FUEL_LIMIT)
}

// The line of playing's answer; the result stands at the front of the area.
fn print_playing(answer: &Result<Played, Refused>, area: &[u8], out: &mut [u8]) -> usize
    ensures { (out.new ≡ put 0 (reply_line (answer_of answer.now) area.now) out.old)
        × (result ≡ behind 0 (reply_line (answer_of answer.now) area.now) out.old) }
{
    match answer {
        Ok(played) => {
            let res = slices::cut(area, 0, played.size);
            print_played(played.outcome, played.line, res, out)
        }
        Err(refused) => answer_lines::print_refusal(refused, out),
    }
}

// The line of a book whose lines were played.
fn print_played(outcome: Outcome, line: usize, res: &[u8], out: &mut [u8]) -> usize
    ensures { (out.new ≡ put 0 (played_line (outcome_of outcome) line res.now) out.old)
        × (result ≡ behind 0 (played_line (outcome_of outcome) line res.now) out.old) }
{
    let word = answer_lines::word(outcome);
    match outcome {
        Outcome::Finished => printing::print_line(word, line as u64, res, out),
        Outcome::Spent | Outcome::NoRoom => printing::print_count(word, line as u64, out),
    }
}
