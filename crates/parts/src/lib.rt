// Where the parts of a term end, in a table that is filled once and then looked up.
#![tactic(auto)]

ghost use Rattle.std.specs.Prelude.{◌≡◌, ◌≤◌, ◌<◌, length, get_or};
ghost use Rattle.calculus.specs.Limits.{area_limit};
ghost use Rattle.calculus.specs.Letter.{letter_of};
ghost use Rattle.parts.specs.Skip.{owed_behind, end_at};
ghost use Rattle.parts.specs.Ends.{listed, Stored};

// How many parts the node of a byte has; none where the byte is no letter.
#[tactic(auto, using(crate::proofs::Skip::taken))]
fn parts_of(b: u8) -> usize
    ensures { result ≡ owed_behind (letter_of b) 0 }
{
    reading::arity(b).unwrap_or(0)
}

// The index behind the part that begins at `at`, by the shape of the term; `at` itself past the end.
// The end of that part, and of every part of it, is stored under the index where it begins.
// Text and table are handed down behind references, each in one word: that keeps a level of the recursion small on the stack.
fn part_end(s: &&[u8], at: usize, ends: &mut &mut [u16]) -> usize
    requires { (length s.now.now ≤ length ends.old.now) × (length s.now.now ≤ area_limit) }
    ensures { (result ≡ end_at s.now.now at)
        × Stored s.now.now at result ends.old.now ends.new.now }
{
    if s.len() <= at {
        return at;
    }
    let mut end = at + 1;
    for _ in 0..parts_of(s[at]) {
        end = part_end(s, end, ends);
    }
    ends[at] = end as u16;
    end
}

// Stores the end of the part that begins at `at`, and of every part of it, each under the index where it begins.
// A table that is shorter than the text is left as it is, and so is one for a text over the limit of areas.
pub fn store_ends(s: &[u8], at: usize, ends: &mut &mut [u16])
    ensures stored { length s.now ≤ area_limit → length s.now ≤ length ends.old.now
        → Stored s.now at (end_at s.now at) ends.old.now ends.new.now }
    ensures too_long { area_limit < length s.now → ends.new.now ≡ ends.old.now }
    ensures too_short { length ends.old.now < length s.now
        → ends.new.now ≡ ends.old.now }
{
    if calculus::AREA_LIMIT < s.len() {
        return;
    }
    if ends.len() < s.len() {
        return;
    }
    part_end(&s, at, ends);
}

// The letters of a text, and a table of the ends of its parts.
#[derive(Clone, Copy)]
pub struct Text<'a> {
    pub letters: &'a [u8],
    pub ends: &'a [u16],
}

impl<'a> Text<'a> {
    // The letter at `at`, 0 past the end.
    pub fn letter_at(self, at: usize) -> u8
        ensures { result ≡ get_or self.entry.letters.now at 0 }
    {
        slices::byte_at(self.letters, at)
    }

    // The end that is stored under `at`, 0 past the table.
    pub fn end_of(self, at: usize) -> usize
        ensures value { result ≡ listed self.entry.ends.now at }
        ensures bounded { result < 65536 }
    {
        usize::from(self.ends.get(at).copied().unwrap_or(0))
    }
}
