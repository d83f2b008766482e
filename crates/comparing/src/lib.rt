// Comparing: both runs, and the verdict on them.
#![tactic(auto)]

ghost use Rattle.std.specs.Prelude.{◌≡◌};
ghost use Rattle.verdicts.specs.Comparing.{After, comparing_of};
ghost use Rattle.verdicts.specs.Answer.{answer_of};
ghost use Rattle.verdicts.specs.Turning.{SameIfTurned};

use admission::Refused;
use verdicts::Verdict;

// Both terms are run with the one fuel and the one work area; nothing is written unless both are admitted.
pub fn compare(
    first: &mut [u8],
    first_len: usize,
    second: &mut [u8],
    second_len: usize,
    work: &mut [u8],
    fuel: u64,
) -> Result<Verdict, Refused>
    ensures work_after { After.after (answer_of result) first.new second.new work.new ≡ comparing_of first.old first_len second.old second_len work.old fuel }
    ensures turning { SameIfTurned (answer_of result) first.old first_len second.old second_len work.old fuel }
{
    admission::admit(first, first_len, work, fuel)?;
    admission::admit(second, second_len, work, fuel)?;
    let one = finishing::finish(first, first_len, work, fuel).unwrap();
    let two = finishing::finish(second, second_len, work, fuel).unwrap();
    Ok(verdicts::verdict_on(first, one, second, two))
}
