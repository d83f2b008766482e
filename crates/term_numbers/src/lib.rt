// The answers of the operations on terms, each as one number for callers in C.
#![tactic(auto)]

ghost use Rattle.std.specs.Prelude.{◌≡◌};
ghost use Rattle.reading.specs.Answer.{answer_of as readingAnswer};
ghost use Rattle.stepping.specs.Answer.{answer_of as steppingAnswer};
ghost use Rattle.finishing.specs.Answer.{outcome_of};
ghost use Rattle.verdicts.specs.Answer.{answer_of as comparingAnswer};
ghost use Rattle.joining.specs.Answer.{answer_of as joiningAnswer};
ghost use Rattle.rows.specs.Answer.{answer_of as ringingAnswer};
ghost use Rattle.catalogue.specs.Answer.{answer_of as catalogueAnswer};
ghost use Rattle.book.specs.Answer.{answer_of as bookAnswer};
ghost use Rattle.codes.specs.Encoding.{outcome_code, read_number, step_number, finish_number, compare_number, join_number, rows_number, enter_number, book_number};
ghost use Rattle.term_numbers.specs.Runs.{run_reply, run_record};

use book::Played;
use catalogue::Entered;
use finishing::{Outcome, Run};
use reading::{Misread, Refusal};
use rows::Rung;
use stepping::Stepped;
use verdicts::Verdict;

// The number of reading's answer.
#[tactic(auto, unfolding(codes::specs::Encoding::read_number))]
pub fn read_number(answer: Result<usize, Misread>) -> u64
    ensures { result ≡ read_number (readingAnswer answer) }
{
    match answer {
        Ok(size) => codes::wide(103, size),
        Err(misread) => codes::refused(&misread),
    }
}

// The number of stepping's answer.
#[tactic(auto, unfolding(codes::specs::Encoding::step_number))]
pub fn step_number(answer: Result<Stepped, stepping::Refused>) -> u64
    ensures { result ≡ step_number (steppingAnswer answer) }
{
    match answer {
        Ok(Stepped::Normal(size)) => codes::narrow(100, 0, size),
        Ok(Stepped::NoRoom(size)) => codes::narrow(101, 0, size),
        Ok(Stepped::Done(rule, size)) => codes::narrow(102, usize::from(rule), size),
        Err(refused) => codes::refused(&refused),
    }
}

// The code of a run's outcome.
fn outcome_code(outcome: Outcome) -> u64
    ensures { result ≡ outcome_code (outcome_of outcome) }
{
    match outcome {
        Outcome::Finished => 110,
        Outcome::Spent => 111,
        Outcome::NoRoom => 112,
    }
}

// The number of the answer of finishing, with counts or without.
#[tactic(auto, unfolding(codes::specs::Encoding::finish_number))]
pub fn run_number<R: Refusal>(answer: &Result<Run, R>) -> u64
    ensures { result ≡ finish_number (run_reply R.refusal answer.now) (run_record answer.now) }
{
    match answer {
        Ok(run) => codes::narrow(outcome_code(run.outcome), run.count as usize, run.size),
        Err(refused) => codes::refused(refused),
    }
}

// The number of comparing's answer.
#[tactic(auto, unfolding(codes::specs::Encoding::compare_number))]
pub fn compare_number(answer: Result<Verdict, admission::Refused>) -> u64
    ensures { result ≡ compare_number (comparingAnswer answer) }
{
    match answer {
        Ok(Verdict::Same) => codes::narrow(113, 0, 0),
        Ok(Verdict::Different) => codes::narrow(114, 0, 0),
        Ok(Verdict::Undecided) => codes::narrow(115, 0, 0),
        Err(refused) => codes::refused(&refused),
    }
}

// The number of joining's answer.
#[tactic(auto, unfolding(codes::specs::Encoding::join_number))]
pub fn join_number(answer: Result<usize, joining::Refused>) -> u64
    ensures { result ≡ join_number (joiningAnswer answer) }
{
    match answer {
        Ok(size) => codes::narrow(160, 0, size),
        Err(refused) => codes::refused(&refused),
    }
}

// The number of the answer that a piece's rows get.
#[tactic(auto, unfolding(codes::specs::Encoding::rows_number))]
pub fn rows_number(answer: Result<Rung, rows::Refused>) -> u64
    ensures { result ≡ rows_number (ringingAnswer answer) }
{
    match answer {
        Ok(rung) => codes::narrow(130, rung.rows, rung.different),
        Err(refused) => codes::refused(&refused),
    }
}

// The number of the answer that an entry in the catalogue gets.
#[tactic(auto, unfolding(codes::specs::Encoding::enter_number))]
pub fn enter_number(answer: Result<Entered, catalogue::Refused>) -> u64
    ensures { result ≡ enter_number (catalogueAnswer answer) }
{
    match answer {
        Ok(Entered::Known(number)) => codes::narrow(150, number, 0),
        Ok(Entered::New(number)) => codes::narrow(150, number, 0),
        Err(refused) => codes::refused(&refused),
    }
}

// The number of the answer that a book gets.
#[tactic(auto, unfolding(codes::specs::Encoding::book_number))]
pub fn book_number(answer: Result<Played, book::Refused>) -> u64
    ensures { result ≡ book_number (bookAnswer answer) }
{
    match answer {
        Ok(played) => codes::narrow(outcome_code(played.outcome), played.line, played.size),
        Err(refused) => codes::refused(&refused),
    }
}
