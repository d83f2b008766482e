// What the program for the mix of rules prints, as a function on bytes: no input and no output here.
#![tactic(auto)]

ghost use Rattle.std.specs.Prelude.{◌≡◌};
ghost use Rattle.answering.specs.Answer.{term_after, work_after};
ghost use Rattle.mix_lines.specs.PutAll.{put_all};
ghost use Rattle.mix_answers.specs.Mix.{printed_mix};

use finish_line::Request;

// The finishing program's line for what its input asks for and, unless that is refused, a line for each rule; `term` holds the term's
// bytes, and both buffers serve as areas. The lines are put into `out` one behind the other, each where it fits, and the answer is the
// length of all.
pub fn answer_mix(asked: Option<Request>, term: &mut [u8], work: &mut [u8], out: &mut [u8]) -> usize
    ensures out_after { (result, out.new) ≡ put_all (printed_mix asked term.old work.old) 0 out.old }
    ensures lent { (term.new ≡ term_after asked term.old work.old)
        × (work.new ≡ work_after asked term.old work.old) }
{
    let answered = answering::answer_run(asked, term, work, out);
    match answered.used {
        Some(by_rule) => mix_lines::append_rows(&by_rule, out, answered.size),
        None => answered.size,
    }
}
