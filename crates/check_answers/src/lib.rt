// What the checking program prints, as a function on bytes: no input and no output here.
#![tactic(auto)]

ghost use Rattle.std.specs.Prelude.{◌≡◌};
ghost use Rattle.slices.specs.Put.{put, behind};
ghost use Rattle.checking.specs.Answer.{answer_of};
ghost use Rattle.answer_lines.specs.Shown.{shown_check};
ghost use Rattle.answering.specs.Program.{check_program};

use checking::Refused;

// The checking program's line for a file, put at the start of `out`; the answer is its length. Where it does not fit, `out` stays and the
// answer is 0.
pub fn answer_check(file: &[u8], out: &mut [u8]) -> usize
    ensures { (out.new ≡ put 0 (check_program file.now) out.old)
        × (result ≡ behind 0 (check_program file.now) out.old) }
{
    print_checking(&checking::check_derivation(file), out)
}

// The line of checking's answer.
fn print_checking(answer: &Result<usize, Refused>, out: &mut [u8]) -> usize
    ensures { (out.new ≡ put 0 (shown_check (answer_of answer.now)) out.old)
        × (result ≡ behind 0 (shown_check (answer_of answer.now)) out.old) }
{
    match answer {
        Ok(lines) => printing::print_count(b"accepted", *lines as u64, out),
        Err(refused) => answer_lines::print_refusal(refused, out),
    }
}
