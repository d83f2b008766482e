// Counts by rule, rule 1 first: one use more, and the counts of two pieces of a run together.
#![tactic(auto)]

ghost use Rattle.std.specs.Prelude.{◌≡◌, List, ◌++◌, ℕ};
ghost use Rattle.calculus.specs.Counts.{tally};
ghost use Rattle.tallies.specs.Tallies.{Countable, bumped, Addable};

// One use more of that rule.
pub fn count_use(counts: &mut [u32], rule: u8)
    requires { Countable counts.old rule }
    ensures { counts.new ≡ bumped counts.old rule }
{
    let place = usize::from(rule) - 1;
    counts[place] += 1;
}

// The counts of both.
pub fn added(counts: [u32; calculus::RULES], more: [u32; calculus::RULES]) -> [u32; calculus::RULES]
    requires { Addable counts more }
    ensures { (used later : List ℕ) → counts ≡ tally used → more ≡ tally later → result ≡ tally (used ++ later) }
{
    let mut sum = counts;
    for (place, later) in more.iter().enumerate() {
        sum[place] += *later;
    }
    sum
}
