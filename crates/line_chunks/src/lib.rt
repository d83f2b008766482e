// A line of three fields, fed chunk by chunk.
#![tactic(auto)]

ghost use Rattle.std.specs.Prelude.{◌≡◌, set};
ghost use Rattle.line_states.specs.Kept.{is_kept, kept_at, kept_byte};
ghost use Rattle.line_states.specs.State.{state, fed};

use line_states::Line;

// Feeds a chunk of the input; the third field's first bytes go into `kept`, as many as fit, the first 16,385 at most.
pub fn feed(line: Line, chunk: &[u8], kept: &mut [u8]) -> Line
    ensures { state result kept.new ≡ fed (state line kept.old) chunk.now }
{
    let mut l = line;
    for b in chunk {
        keep(l, *b, kept);
        l = line_states::fed_line(l, *b);
    }
    l
}

// Keeps a byte of the third field behind those that are kept, where it has room.
fn keep(line: Line, b: u8, kept: &mut [u8])
    ensures { kept.new ≡ kept_byte line b kept.old }
{
    if let Line::InThird { length, .. } = line {
        keep_at(length, b, kept);
    }
}

// Keeps a byte behind the second tab at an index, where it is one of the third field's and has room.
fn keep_at(length: usize, b: u8, kept: &mut [u8])
    ensures { kept.new ≡ kept_at «length» b kept.old }
{
    if is_kept(length, b) {
        store(kept, length, b);
    }
}

// Whether a byte behind the second tab is one of the first that are kept, and neither tab nor line feed.
fn is_kept(length: usize, b: u8) -> bool
    ensures { result ≡ is_kept «length» b }
{
    if b == slices::LINE_FEED {
        return false;
    }
    if b == slices::TAB {
        return false;
    }
    length < line_states::LENGTH_CAP
}

// Stores a byte at an index, where that is in range.
fn store(kept: &mut [u8], at: usize, b: u8)
    ensures { kept.new ≡ set kept.old at b }
{
    if at < kept.len() {
        kept[at] = b;
    }
}
