// Finishing with counts: the run, and how often it used each rule, written into a slice that the caller lends.
#![tactic(auto)]

ghost use Rattle.std.specs.Prelude.{◌≡◌};
ghost use Rattle.counting.specs.Counting.{After, counting_of};
ghost use Rattle.counting.specs.Answer.{refusal_of, reply_of, ran_in};

use finishing::Run;
use reading::Refusal;

// The bytes that the counts take: four for each rule.
pub const COUNTS_SIZE: usize = 52;

// What finishing with counts refuses; specs/Answer.antt gives the number and the place of each case.
#[derive(Clone, Copy)]
pub enum Refused {
    // There are fewer bytes for the counts than they take.
    CountsTooShort,
    // What finishing refuses, unaltered.
    Unfinished(admission::Refused),
}

impl Refusal for Refused {
    ghost refusal = { refusal_of };

    fn number(&self) -> u64 {
        match *self {
            Refused::CountsTooShort => 2,
            Refused::Unfinished(refused) => refused.number(),
        }
    }

    fn place(&self) -> usize {
        match *self {
            Refused::CountsTooShort => 0,
            Refused::Unfinished(refused) => refused.place(),
        }
    }
}

impl From<admission::Refused> for Refused {
    ghost use Rattle.counting.specs.declared.Refused.TheVariants.{Unfinished};

    ghost from_gives = { λ refused e. e ≡ Unfinished refused };

    fn from(refused: admission::Refused) -> Refused {
        Refused::Unfinished(refused)
    }
}

// The run of the term in the first `len` bytes of the area, its counts in the first 52 bytes of `counts`.
#[tactic(auto, unfolding(crate::specs::Counting::counting_of))]
pub fn finish_counted(
    area: &mut [u8],
    len: usize,
    work: &mut [u8],
    fuel: u64,
    counts: &mut [u8],
) -> Result<Run, Refused>
    ensures { After.after (reply_of result) (ran_in result) area.new work.new counts.new
        ≡ counting_of area.old len work.old fuel counts.old }
{
    if counts.len() < COUNTS_SIZE {
        return Err(Refused::CountsTooShort);
    }
    let run = finishing::finish(area, len, work, fuel)?;
    words::append_words(&run.by_rule, counts, 0);
    Ok(run)
}
