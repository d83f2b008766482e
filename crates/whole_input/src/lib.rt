// A whole input, read into memory that is lent: what every program that takes a file reads with.
#![tactic(auto)]

ghost use Rattle.std.specs.Prelude.{◌≡◌, ◌+◌, ◌≤◌, length, take, IfOk};

use std::io;
use std::io::Read;

// Reads once, behind the first `at` bytes, and answers how many bytes that gave. A read that a signal interrupts failed too.
fn read_some<R: Read>(from: &mut R, buf: &mut [u8], at: usize) -> io::Result<usize>
    requires { at ≤ length buf.old }
    ensures within { IfOk result (λ n. at + n ≤ length buf.new) }
    ensures kept { take at buf.new ≡ take at buf.old }
{
    from.read(&mut buf[at..])
}

// Reads `from` into `buf`, until that is full or the input ends, and answers how many bytes that are, or that a read failed.
pub fn read_all<R: Read>(from: &mut R, buf: &mut [u8]) -> io::Result<usize>
    ensures { IfOk result (λ n. n ≤ length buf.new) }
{
    let mut at = 0;
    // Kept: a `while`, since each turn goes on behind as many bytes as a read gave.
    while at < buf.len() {
        let more = read_some(from, buf, at)?;
        if more == 0 {
            break;
        }
        at += more;
    }
    Ok(at)
}
