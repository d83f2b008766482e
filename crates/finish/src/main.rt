// The finishing program: one line from standard input, one line to standard output.
// Where standard input cannot be read or standard output cannot be written, one line on standard error says so.
#![tactic(auto)]

ghost use Rattle.std.specs.Prelude.{◌≡◌};
ghost use Rattle.slices.specs.Put.{put, behind};
ghost use Rattle.finish_line.specs.Answer.{asked_of};
ghost use Rattle.answering.specs.Program.{unless_error};
ghost use Rattle.answering.specs.Answer.{printed_run};

use line_states::Line;
use std::io;

// The line for standard output, put at the start of `out`: none where standard input could not be read.
#[tactic(auto, unfolding(slices::specs::Put::put, slices::specs::Put::behind))]
fn answer(read: io::Result<Line>, term: &mut [u8], work: &mut [u8], out: &mut [u8]) -> usize
    ensures { (out.new ≡ put 0 (unless_error read (λ line. printed_run (asked_of line) term.old work.old)) out.old)
        × (result ≡ behind 0 (unless_error read (λ line. printed_run (asked_of line) term.old work.old)) out.old) }
{
    let Ok(line) = read else {
        return 0;
    };
    answering::answer_run(finish_line::asked_for(line), term, work, out).size
}

fn main(rt: HostRuntime) {
    let mut term = [0u8; calculus::AREA_LIMIT];
    let mut work = [0u8; calculus::AREA_LIMIT];
    let mut out = [0u8; 16512];
    serving::serve(
        &rt,
        "finish",
        &mut term,
        &mut out,
        |term| feeding::feed_all(&mut rt.stdin(), term).map_err(|unread| unread.error),
        |read, term, out| answer(read, term, &mut work, out),
    );
}
