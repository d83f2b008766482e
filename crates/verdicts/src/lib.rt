// What comparing answers: whether two terms have the same result, by the records of their runs.
#![tactic(auto)]

ghost use Rattle.std.specs.Prelude.{◌≡◌};
ghost use Rattle.slices.specs.Part.{part};
ghost use Rattle.finishing.specs.Answer.{outcome_of};
ghost use Rattle.verdicts.specs.Comparing.{verdict};
ghost use Rattle.verdicts.specs.Answer.{compared_of};

use finishing::{Outcome, Run};

// What comparing says of two runs; specs/Answer.antt gives the word of each case.
#[derive(Clone, Copy, PartialEq, Eq)]
pub enum Verdict {
    // Both finished, with the same result.
    Same,
    // Both finished, with different results.
    Different,
    // Either was not finished.
    Undecided,
}

// The verdict on two runs, by their records and the areas that hold the terms reached.
pub fn verdict_on(first: &[u8], one: Run, second: &[u8], two: Run) -> Verdict
    ensures { compared_of result ≡ verdict (outcome_of one.outcome) (outcome_of two.outcome)
        (part 0 one.size first.now) (part 0 two.size second.now) }
{
    let (Outcome::Finished, Outcome::Finished) = (one.outcome, two.outcome) else {
        return Verdict::Undecided;
    };
    if slices::same_part(first, 0, one.size, second, 0, two.size) {
        Verdict::Same
    } else {
        Verdict::Different
    }
}
