// The writer: the text that a rewrite makes, piece by piece, and back in the area that it was made of.
#![tactic(auto)]

ghost use Rattle.std.specs.Prelude.{◌≡◌, ◌≤◌, length, take, replicate};
ghost use Rattle.slices.specs.Put.{put, behind};
ghost use Rattle.rewriting.specs.Text.{letter_text, pieces_of, rewritten};
ghost use Rattle.writing.specs.PutAll.{put_all, behind_all};
ghost use Rattle.writing.specs.Back.{Back};

use filling::{append, append_byte, clear};
use rewriting::Rewrite;
use slices::cut;

// Writes a letter, or nothing.
fn append_letter(letter: Option<u8>, dst: &mut [u8], at: usize) -> usize
    ensures { (dst.new ≡ put at (letter_text letter) dst.old) × (result ≡ behind at (letter_text letter) dst.old) }
{
    match letter {
        Some(b) => append_byte(b, dst, at),
        None => at,
    }
}

// Writes what comes of the text `s` to the front of `dst`, piece by piece, and answers the index behind it; a piece that does not fit is left out.
fn write(s: &[u8], w: Rewrite, dst: &mut [u8]) -> usize
    ensures { (dst.new ≡ put_all 0 (pieces_of w s.now) dst.old)
        × (result ≡ behind_all 0 (pieces_of w s.now) dst.old) }
{
    let first = w.first;
    let second = w.second;
    let again = w.again;
    let kept = append(s, 0, w.keep, dst, 0);
    let lettered = append_letter(w.letter, dst, kept);
    let one = append(s, first.from, first.to, dst, lettered);
    let two = append(s, second.from, second.to, dst, one);
    let three = append(s, again.from, again.to, dst, two);
    append(s, w.rest, s.len(), dst, three)
}

// Writes what comes of the first `len` bytes of `area` back to its front, by way of `work`, and answers the index behind it.
// Zeros stand behind it and in the whole of `work`.
pub fn write_back(area: &mut [u8], len: usize, w: Rewrite, work: &mut [u8]) -> usize
    ensures back { length (rewritten w (take len area.old)) ≤ length area.old
        → length (rewritten w (take len area.old)) ≤ length work.old
        → Back (rewritten w (take len area.old)) area.old result area.new }
    ensures work_after { work.new ≡ replicate (length work.old) 0 }
{
    let size = write(cut(area, 0, len), w, work);
    append(work, 0, size, area, 0);
    clear(area, size, work);
    size
}
