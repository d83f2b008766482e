// A line of three fields, fed from standard input: what every program that takes such a line reads with.
#![tactic(auto)]

ghost use Rattle.line_states.specs.Fed.{start_line};
ghost use Rattle.line_states.specs.State.{state};
ghost use Rattle.feeding.specs.Fed.{FedBy, FedAll};

use line_states::Line;
use std::io;
use std::io::Read;

// Reads a chunk and feeds it, and answers how many bytes it had: 0 at the end of the input. A read that a signal interrupts failed too.
fn feed_some<R: Read>(from: &mut R, line: &mut Line, kept: &mut [u8]) -> io::Result<usize>
    ensures { FedBy result (state line.old kept.old) (state line.new kept.new) }
{
    let mut chunk = [0u8; 4096];
    let n = from.read(&mut chunk)?;
    *line = line_chunks::feed(*line, &chunk[..n], kept);
    Ok(n)
}

// What a failed read leaves: the line as the reads before it left it, and the error.
#[derive(Drop)]
pub struct Unread {
    pub line: Line,
    pub error: io::Error,
}

// Feeds all that `from` has left, up to a read that fails: its error comes with the line so far. A proved loop has to end, so the turns
// count up to a number that no run reaches.
pub fn feed_all<R: Read>(from: &mut R, kept: &mut [u8]) -> Result<Line, Unread>
    ensures { FedAll (state start_line kept.old) result kept.new }
{
    let mut line = line_states::start();
    for _ in 0..u64::MAX {
        match feed_some(from, &mut line, kept) {
            Ok(0) => break,
            Ok(_) => {}
            Err(error) => return Err(Unread { line, error }),
        }
    }
    Ok(line)
}
