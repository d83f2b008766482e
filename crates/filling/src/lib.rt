// What is written into slices: pieces, single bytes and zeros. What does not fit is left out.
#![tactic(auto)]

ghost use Rattle.std.specs.Prelude.{◌≡◌, [], ◌∷◌, ◌++◌, ◌+◌, ◌-◌, ◌≤◌, length, take, replicate};
ghost use Rattle.slices.specs.Part.{part};
ghost use Rattle.slices.specs.Put.{put, behind};

use slices::cut;

// Copies all of `piece` to index `at` of `dst`, where it fits.
// Kept: byte by byte, since `copy_from_slice` makes the archive import `memmove` beside `memcpy` and `memset` (docs/FIRMWARE.md, a test).
fn copy_in(piece: &[u8], dst: &mut [u8], at: usize)
    requires { at + length piece.now ≤ length dst.old }
    ensures { dst.new ≡ put at piece.now dst.old }
{
    for (i, b) in piece.iter().enumerate() {
        dst[at + i] = *b;
    }
}

// Writes a part of `src` to index `at` of `dst` and answers the index behind it; changes nothing where it does not fit.
#[tactic(auto, unfolding(slices::specs::Put::put, slices::specs::Put::behind))]
pub fn append(src: &[u8], from: usize, to: usize, dst: &mut [u8], at: usize) -> usize
    ensures { (dst.new ≡ put at (part from to src.now) dst.old)
        × (result ≡ behind at (part from to src.now) dst.old) }
{
    let piece = cut(src, from, to);
    if dst.len() < at {
        return at;
    }
    if dst.len() - at < piece.len() {
        return at;
    }
    copy_in(piece, dst, at);
    at + piece.len()
}

// Writes one byte to index `at` of `dst` and answers the index behind it; changes nothing where it does not fit.
#[tactic(auto, unfolding(slices::specs::Put::put, slices::specs::Put::behind))]
pub fn append_byte(b: u8, dst: &mut [u8], at: usize) -> usize
    ensures { (dst.new ≡ put at (b ∷ []) dst.old) × (result ≡ behind at (b ∷ []) dst.old) }
{
    if at < dst.len() {
        dst[at] = b;
        return at + 1;
    }
    at
}

// Sets every byte of `dst` from index `at` on to 0.
pub fn zero_from(dst: &mut [u8], at: usize)
    ensures { dst.new ≡ take at dst.old ++ replicate (length dst.old - at) 0 }
{
    let kept = at.min(dst.len());
    dst[kept..].fill(0);
}

// Zeros behind the first `size` bytes of `area`, and in the whole of `work`.
pub fn clear(area: &mut [u8], size: usize, work: &mut [u8])
    ensures area_after { area.new ≡ take size area.old ++ replicate (length area.old - size) 0 }
    ensures work_after { work.new ≡ replicate (length work.old) 0 }
{
    zero_from(area, size);
    zero_from(work, 0);
}
