// How many different numbers a slice holds.
#![tactic(auto)]

ghost use Rattle.std.specs.Prelude.{◌≡◌, eqb, length};
ghost use Rattle.repeats.specs.Repeats.{among, withoutRepeats};

// Whether a number stands in a slice.
fn stands(number: u64, numbers: &[u64]) -> bool
    ensures { result ≡ among eqb number numbers.now }
{
    for other in numbers {
        if *other == number {
            return true;
        }
    }
    false
}

// How many different numbers there are: each is counted where it stands last.
pub fn different(numbers: &[u64]) -> usize
    ensures { result ≡ length (withoutRepeats eqb numbers.now) }
{
    let mut count = 0;
    for (i, number) in numbers.iter().enumerate() {
        if !stands(*number, &numbers[i + 1..]) {
            count += 1;
        }
    }
    count
}
