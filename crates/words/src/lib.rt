// Numbers as four bytes each, low byte first, read from a slice and written into one. Total: the definition says what happens where they do not fit.
#![tactic(auto)]

ghost use Rattle.std.specs.Prelude.{◌≡◌};
ghost use Rattle.slices.specs.Put.{put, behind};
ghost use Rattle.words.specs.Word.{word_of, words_of, word_at};

// The number whose four bytes stand from index `at` on; 0 where they are not all there.
pub fn word_at(s: &[u8], at: usize) -> u32
    ensures { result ≡ word_at at s.now }
{
    if s.len() < 4 {
        return 0;
    }
    if s.len() - 4 < at {
        return 0;
    }
    u32::from_le_bytes([s[at], s[at + 1], s[at + 2], s[at + 3]])
}

// Writes a number to index `at` of `dst` and answers the index behind it; changes nothing where it does not fit.
pub fn append_word(n: u32, dst: &mut [u8], at: usize) -> usize
    ensures { (dst.new ≡ put at (word_of n) dst.old) × (result ≡ behind at (word_of n) dst.old) }
{
    filling::append(&n.to_le_bytes(), 0, 4, dst, at)
}

// Writes numbers one behind the other, as `append_word` does; all of them or none.
#[tactic(auto, using(crate::proofs::Words::words_length), unfolding(slices::specs::Put::put, slices::specs::Put::behind))]
pub fn append_words(numbers: &[u32], dst: &mut [u8], at: usize) -> usize
    ensures { (dst.new ≡ put at (words_of numbers.now) dst.old)
        × (result ≡ behind at (words_of numbers.now) dst.old) }
{
    if dst.len() < at {
        return at;
    }
    if (dst.len() - at) / 4 < numbers.len() {
        return at;
    }
    let mut end = at;
    for n in numbers {
        end = append_word(*n, dst, end);
    }
    end
}
