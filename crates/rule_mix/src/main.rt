// The program for the mix of rules: the finishing program's line from standard input, its answer and a line for each rule to standard
// output.
// Where standard input cannot be read or standard output cannot be written, one line on standard error says so.
#![tactic(auto)]

ghost use Rattle.std.specs.Prelude.{◌≡◌};
ghost use Rattle.finish_line.specs.Answer.{asked_of};
ghost use Rattle.mix_lines.specs.PutAll.{put_all};
ghost use Rattle.mix_answers.specs.Mix.{printed_mix, none_error};

use line_states::Line;
use std::io;

// The lines for standard output, put at the start of `out`: none where standard input could not be read.
fn answer(read: io::Result<Line>, term: &mut [u8], work: &mut [u8], out: &mut [u8]) -> usize
    ensures { (result, out.new)
        ≡ put_all (none_error read (λ line. printed_mix (asked_of line) term.old work.old)) 0 out.old }
{
    let Ok(line) = read else {
        return 0;
    };
    mix_answers::answer_mix(finish_line::asked_for(line), term, work, out)
}

fn main(rt: HostRuntime) {
    let mut term = [0u8; calculus::AREA_LIMIT];
    let mut work = [0u8; calculus::AREA_LIMIT];
    let mut out = [0u8; 17408];
    serving::serve(
        &rt,
        "rule_mix",
        &mut term,
        &mut out,
        |term| feeding::feed_all(&mut rt.stdin(), term).map_err(|unread| unread.error),
        |read, term, out| answer(read, term, &mut work, out),
    );
}
