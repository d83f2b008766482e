// What the finishing program prints, as a function on bytes: no input and no output here.
#![tactic(auto)]

ghost use Rattle.std.specs.Prelude.{◌≡◌, ◌++◌, drop};
ghost use Rattle.slices.specs.Put.{put, behind};
ghost use Rattle.finishing.specs.Answer.{reply_of, ran_in};
ghost use Rattle.answer_lines.specs.Shown.{shown_run};
ghost use Rattle.answering.specs.Answer.{finished_in, area_in, work_in, used_with, used_in, printed_run, term_after, work_after, used_of};

use admission::Refused;
use finish_line::{OtherShape, Request};
use finishing::Run;

// What was printed: how long the line is and, where there was a run, how often it used each rule.
#[derive(Clone, Copy)]
pub struct Answered {
    pub size: usize,
    pub used: Option<[u32; calculus::RULES]>,
}

// The finishing program's line for what its input asks for; `term` holds the term's bytes, and both buffers serve as areas.
// The line is put at the start of `out` and the answer has its length; where it does not fit, `out` stays and the length is 0.
pub fn answer_run(
    asked: Option<Request>,
    term: &mut [u8],
    work: &mut [u8],
    out: &mut [u8],
) -> Answered
    ensures out_after { (out.new ≡ put 0 (printed_run asked term.old work.old) out.old)
        × (result.size ≡ behind 0 (printed_run asked term.old work.old) out.old) }
    ensures lent { (term.new ≡ term_after asked term.old work.old)
        × (work.new ≡ work_after asked term.old work.old) }
    ensures used { result.used ≡ used_of asked term.old work.old }
{
    let Some(request) = asked else {
        return Answered {
            size: answer_lines::print_refusal(&OtherShape, out),
            used: None,
        };
    };
    run_request(request, term, work, out)
}

// The run that a line of the right shape asks for.
fn run_request(request: Request, term: &mut [u8], work: &mut [u8], out: &mut [u8]) -> Answered
    ensures out_after { (out.new ≡ put 0 (shown_run (finished_in request.fuel request.area request.length term.old work.old)) out.old)
        × (result.size ≡ behind 0 (shown_run (finished_in request.fuel request.area request.length term.old work.old)) out.old) }
    ensures lent { (term.new ≡ area_in (finished_in request.fuel request.area request.length term.old work.old) ++ drop request.area term.old)
        × (work.new ≡ work_in (finished_in request.fuel request.area request.length term.old work.old) ++ drop request.area work.old) }
    ensures used { result.used ≡ used_in (finished_in request.fuel request.area request.length term.old work.old) }
{
    let n = request.area.min(term.len());
    let m = request.area.min(work.len());
    let answer = finishing::finish(&mut term[..n], request.length, &mut work[..m], request.fuel);
    let size = answer_lines::print_finishing(&answer, &term[..n], out);
    Answered {
        size,
        used: used_by(&answer),
    }
}

// How often a run used each rule, where there was one.
fn used_by(answer: &Result<Run, Refused>) -> Option<[u32; calculus::RULES]>
    ensures { result ≡ used_with (reply_of answer.now) (ran_in answer.now) }
{
    match answer {
        Ok(run) => Some(run.by_rule),
        Err(_) => None,
    }
}
