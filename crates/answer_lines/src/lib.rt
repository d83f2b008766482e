// The lines that programs print of an operation's answer.
#![tactic(auto)]

ghost use Rattle.std.specs.Prelude.{◌≡◌};
ghost use Rattle.slices.specs.Put.{put, behind};
ghost use Rattle.finishing.specs.Answer.{outcome_of, ran_of, reply_of, ran_in};
ghost use Rattle.answer_lines.specs.Shown.{word, refusal_line, ran_line, reply_line};

use finishing::{Outcome, Run};
use reading::Refusal;

// The line of finishing's answer, put at the start of `out`; answered is its length. Where it does not fit, `out` stays and 0 is answered.
pub fn print_finishing(
    answer: &Result<Run, admission::Refused>,
    area: &[u8],
    out: &mut [u8],
) -> usize
    ensures { (out.new ≡ put 0 (reply_line (reply_of answer.now) (ran_in answer.now) area.now) out.old)
        × (result ≡ behind 0 (reply_line (reply_of answer.now) (ran_in answer.now) area.now) out.old) }
{
    match answer {
        Ok(run) => print_run(run, area, out),
        Err(refused) => print_refusal(refused, out),
    }
}

// The line of any refusal: its number, and its place or line.
pub fn print_refusal<R: Refusal>(refusal: &R, out: &mut [u8]) -> usize
    ensures { (out.new ≡ put 0 (refusal_line (R.refusal refusal.now)) out.old)
        × (result ≡ behind 0 (refusal_line (R.refusal refusal.now)) out.old) }
{
    printing::print_numbers(b"refused", refusal.number(), refusal.place() as u64, out)
}

// The line of a run; the term reached stands at the front of the area.
pub fn print_run(run: &Run, area: &[u8], out: &mut [u8]) -> usize
    ensures { (out.new ≡ put 0 (ran_line (ran_of run.now) area.now) out.old)
        × (result ≡ behind 0 (ran_line (ran_of run.now) area.now) out.old) }
{
    let term = slices::cut(area, 0, run.size);
    printing::print_line(word(run.outcome), run.count, term, out)
}

// The word of an outcome.
pub fn word(outcome: Outcome) -> &'static [u8]
    ensures { result.now ≡ word (outcome_of outcome) }
{
    match outcome {
        Outcome::Finished => b"finished",
        Outcome::Spent => b"spent",
        Outcome::NoRoom => b"no room",
    }
}
