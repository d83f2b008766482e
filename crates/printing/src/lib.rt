// The lines that programs print: fields with tabs between them, ended by a line feed, put into a buffer that the caller lends.
#![tactic(auto)]

ghost use Rattle.std.specs.Prelude.{◌≡◌};
ghost use Rattle.slices.specs.Put.{put, behind};
ghost use Rattle.printing.specs.Printed.{line_of, numbers_of, count_of};

// Prints a word, a number and further bytes as one line at the start of `out` and answers how many bytes that are.
// Where the line does not fit, nothing changes and the answer is 0.
#[tactic(auto, unfolding(slices::specs::Put::put, slices::specs::Put::behind))]
pub fn print_line(word: &[u8], number: u64, rest: &[u8], out: &mut [u8]) -> usize
    ensures { (out.new ≡ put 0 (line_of word.now number rest.now) out.old)
        × (result ≡ behind 0 (line_of word.now number rest.now) out.old) }
{
    let front = word.len() + numerals::decimal_length(number) + 3;
    if out.len() < rest.len() {
        return 0;
    }
    if out.len() - rest.len() < front {
        return 0;
    }
    let a = columns::append_field(word, slices::TAB, out, 0);
    let b = columns::append_number(number, slices::TAB, out, a);
    columns::append_field(rest, slices::LINE_FEED, out, b)
}

// Prints a word and two numbers, as `print_line` does.
#[tactic(auto, unfolding(slices::specs::Put::put, slices::specs::Put::behind))]
pub fn print_numbers(word: &[u8], first: u64, second: u64, out: &mut [u8]) -> usize
    ensures { (out.new ≡ put 0 (numbers_of word.now first second) out.old)
        × (result ≡ behind 0 (numbers_of word.now first second) out.old) }
{
    let digits = numerals::decimal_length(first) + numerals::decimal_length(second);
    if out.len() < word.len() + digits + 3 {
        return 0;
    }
    let a = columns::append_field(word, slices::TAB, out, 0);
    let b = columns::append_number(first, slices::TAB, out, a);
    columns::append_number(second, slices::LINE_FEED, out, b)
}

// Prints a word and a number, as `print_line` does.
#[tactic(auto, unfolding(slices::specs::Put::put, slices::specs::Put::behind))]
pub fn print_count(word: &[u8], count: u64, out: &mut [u8]) -> usize
    ensures { (out.new ≡ put 0 (count_of word.now count) out.old)
        × (result ≡ behind 0 (count_of word.now count) out.old) }
{
    if out.len() < word.len() + numerals::decimal_length(count) + 2 {
        return 0;
    }
    let a = columns::append_field(word, slices::TAB, out, 0);
    columns::append_number(count, slices::LINE_FEED, out, a)
}
