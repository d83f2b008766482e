// The lines that show how often each rule was used: rule, count and a bar, scaled to the largest count.
#![tactic(auto)]

ghost use Rattle.std.specs.Prelude.{◌≡◌};
ghost use Rattle.slices.specs.Put.{put, behind};
ghost use Rattle.mix_lines.specs.Mix.{bar_width, mix_row, largest_of, mix_rows};
ghost use Rattle.mix_lines.specs.PutAll.{put_all};

// How many marks a bar has: forty for the largest count, rounded up for the others, so that none stands only where a rule was not used.
fn bar_width(count: u32, largest: u32) -> usize
    ensures { result ≡ bar_width count largest }
{
    if largest == 0 {
        return 0;
    }
    ((u64::from(count) * 40 + (u64::from(largest) - 1)) / u64::from(largest)) as usize
}

// Writes a rule's line to index `at` of `out` and answers the index behind it; changes nothing where it does not fit.
#[tactic(auto, unfolding(slices::specs::Put::put, slices::specs::Put::behind))]
fn append_row(rule: u64, count: u32, largest: u32, out: &mut [u8], at: usize) -> usize
    ensures { (out.new ≡ put at (mix_row largest rule count) out.old)
        × (result ≡ behind at (mix_row largest rule count) out.old) }
{
    let bar = slices::cut(
        b"########################################",
        0,
        bar_width(count, largest),
    );
    let number = u64::from(count);
    let digits = numerals::decimal_length(rule) + numerals::decimal_length(number);
    if out.len() < at {
        return at;
    }
    if out.len() - at < digits + bar.len() + 3 {
        return at;
    }
    let a = columns::append_number(rule, slices::TAB, out, at);
    let b = columns::append_number(number, slices::TAB, out, a);
    columns::append_field(bar, slices::LINE_FEED, out, b)
}

// The largest of some counts, 0 where there are none.
fn largest_of(counts: &[u32]) -> u32
    ensures { result ≡ largest_of counts.now }
{
    let mut most = 0;
    for count in counts {
        most = most.max(*count);
    }
    most
}

// Writes the lines of the counts, rule 1 first, from index `at` of `out` on, each where it fits, and answers the index behind the last.
pub fn append_rows(counts: &[u32], out: &mut [u8], at: usize) -> usize
    ensures { (result, out.new) ≡ put_all (mix_rows counts.now) at out.old }
{
    let largest = largest_of(counts);
    let mut end = at;
    for (i, count) in counts.iter().enumerate() {
        end = append_row(i as u64 + 1, *count, largest, out, end);
    }
    end
}
