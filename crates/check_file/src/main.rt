// The checking program: a derivation file from standard input, one line to standard output.
// Where standard input cannot be read or standard output cannot be written, one line on standard error says so.
#![tactic(auto)]

ghost use Rattle.std.specs.Prelude.{◌≡◌, take};
ghost use Rattle.slices.specs.Put.{put, behind};
ghost use Rattle.answering.specs.Program.{check_program, unless_error};

use std::io;

// The line for standard output, put at the start of `out`: none where standard input could not be read. What was read stands at the front
// of `file`.
#[tactic(auto, unfolding(slices::specs::Put::put, slices::specs::Put::behind))]
fn answer(read: io::Result<usize>, file: &[u8], out: &mut [u8]) -> usize
    ensures { (out.new ≡ put 0 (unless_error read (λ n. check_program (take n file.now))) out.old)
        × (result ≡ behind 0 (unless_error read (λ n. check_program (take n file.now))) out.old) }
{
    let Ok(size) = read else {
        return 0;
    };
    check_answers::answer_check(slices::cut(file, 0, size), out)
}

fn main(rt: HostRuntime) {
    let mut file = [0u8; 65537];
    let mut out = [0u8; 128];
    serving::serve(
        &rt,
        "check_file",
        &mut file,
        &mut out,
        |file| whole_input::read_all(&mut rt.stdin(), file),
        |read, file, out| answer(read, file, out),
    );
}
