// The program for the dearest small term: one line from standard input, one line to standard output.
// Where standard input cannot be read or standard output cannot be written, one line on standard error says so.
#![tactic(auto)]

ghost use Rattle.std.specs.Prelude.{◌≡◌};
ghost use Rattle.slices.specs.Put.{put, behind};
ghost use Rattle.answering.specs.Program.{unless_error};
ghost use Rattle.sweep_line.specs.Answer.{asked_of};
ghost use Rattle.dearest_answers.specs.Shown.{printed_dearest};

use line_states::Line;
use std::io;

// The line for standard output, put at the start of `out`: none where standard input could not be read.
#[tactic(auto, unfolding(slices::specs::Put::put, slices::specs::Put::behind))]
fn answer(read: io::Result<Line>, out: &mut [u8]) -> usize
    ensures { (out.new ≡ put 0 (unless_error read (λ line. printed_dearest (asked_of line))) out.old)
        × (result ≡ behind 0 (unless_error read (λ line. printed_dearest (asked_of line))) out.old) }
{
    let Ok(line) = read else {
        return 0;
    };
    dearest_answers::answer_dearest(sweep_line::asked_for(line), out)
}

fn main(rt: HostRuntime) {
    let mut kept = [0u8; 1];
    let mut out = [0u8; 32];
    serving::serve(
        &rt,
        "dearest",
        &mut kept,
        &mut out,
        |kept| feeding::feed_all(&mut rt.stdin(), kept).map_err(|unread| unread.error),
        |read, _, out| answer(read, out),
    );
}
