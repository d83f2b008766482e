// What the programs have in common: read standard input, answer, write the answer to standard output.
// Where standard input cannot be read or standard output cannot be written, one line on standard error says so.
#![tactic(auto)]

ghost use Rattle.serving.specs.Served.{Served};

use std::io;

// Writes the bytes to standard output, or says on standard error that it could not.
fn write_out<H: Print + Eprint>(rt: &H, name: &str, bytes: &[u8]) {
    if rt.write_all(bytes).is_err() {
        let _ = eprintln!(rt; "{name}: standard output could not be written");
    }
}

// Reads by `read`, into `kept`, hands what that gave to `answer`, also where it failed, and writes the bytes at the front of `out` that
// `answer` counts. No contract can say what is written, and on which stream: this one says that both were called, and on what.
pub fn serve<H, T, R, A>(rt: &H, name: &str, kept: &mut [u8], out: &mut [u8], read: R, answer: A)
where
    H: Print + Eprint,
    R: FnOnce(&mut [u8]) -> io::Result<T>,
    A: FnOnce(io::Result<T>, &mut [u8], &mut [u8]) -> usize,
    requires readable { R.IsAlwaysCallable read }
    requires answerable { A.IsAlwaysCallable answer }
    ensures { Served R.FnOnce A.FnOnce read answer kept.old out.old kept.new out.new }
{
    let got = read(kept);
    if got.is_err() {
        let _ = eprintln!(rt; "{name}: standard input could not be read");
    }
    let n = answer(got, kept, out);
    write_out(rt, name, slices::cut(out, 0, n));
}
