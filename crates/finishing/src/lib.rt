// Finishing: the run of the term in a lent area. `stepping::steps` makes several steps at once, and where it makes none `stepping::step`
// makes the next one or finds that it has no room.
#![tactic(auto)]

ghost use Rattle.std.specs.Prelude.{◌≡◌, ◌≤◌, IfOk, length};
ghost use Rattle.calculus.specs.Limits.{fuel_limit};
ghost use Rattle.calculus.specs.Term.{Term};
ghost use Rattle.calculus.specs.Run.{run};
ghost use Rattle.reading.specs.Reply.{Reply};
ghost use Rattle.stepping.specs.Held.{Holds};
ghost use Rattle.stepping.specs.Answer.{stepped_of};
ghost use Rattle.finishing.specs.Finishing.{After, finishing_of};
ghost use Rattle.finishing.specs.Answer.{outcome_of, ran_of, reply_of, ran_in};
ghost use Rattle.finishing.specs.Loop.{end_without_fuel, Ready, StepsOn, MovesOn, Reaches};

use admission::Refused;
use stepping::{Batch, Stepped};

// How a run ends.
#[derive(Clone, Copy, PartialEq, Eq)]
pub enum Outcome {
    Finished,
    Spent,
    NoRoom,
}

// The record of a run: its outcome, the count of steps made, how often each rule was used, rule 1 first, and the size of the term reached.
#[derive(Clone, Copy)]
pub struct Run {
    pub outcome: Outcome,
    pub count: u64,
    pub by_rule: [u32; calculus::RULES],
    pub size: usize,
}

// How a run ends that has no fuel left, by the bytes of the term reached.
fn end_without_fuel(s: &[u8]) -> Outcome
    ensures { outcome_of result ≡ end_without_fuel s.now }
{
    if reading::has_stop(s) {
        Outcome::Spent
    } else {
        Outcome::Finished
    }
}

// The next step of the term in the first `size` bytes. The next term can need twice the size of the term, at most the whole area.
// Kept: area, size and work are three parameters here and below, as in the public functions; a struct of the two lent slices would be
// built again for each call of stepping, which is no plainer.
fn step_once(area: &mut [u8], size: usize, work: &mut [u8]) -> Stepped
    requires { Ready area.old size work.old }
    ensures { (t : Term) → Holds area.old size t → StepsOn area.old area.new t (Reply.answered (stepped_of result)) }
{
    let needed = area.len().min(2 * size);
    stepping::step(&mut area[..needed], size, &mut work[..needed]).unwrap()
}

// Up to `most` steps of the term in the first `size` bytes: several at once, or else the next one alone. None only where there is no next
// step, or no room for it.
fn make_steps(area: &mut [u8], size: usize, work: &mut [u8], most: u64) -> Batch
    requires ready { Ready area.old size work.old }
    requires le_most { 1 ≤ most }
    ensures { (t : Term) → Holds area.old size t
        → MovesOn area.old t most result.made result.by_rule result.size area.new }
{
    let batch = stepping::steps(area, size, most);
    if 0 < batch.made {
        return batch;
    }
    let Stepped::Done(rule, next) = step_once(area, batch.size, work) else {
        return batch;
    };
    let mut by_rule = batch.by_rule;
    tallies::count_use(&mut by_rule, rule);
    Batch {
        made: 1,
        by_rule,
        size: next,
    }
}

// The run of the term in the first `len` bytes; what stands behind the term reached, and in the work area, is left.
fn run_term(area: &mut [u8], len: usize, work: &mut [u8], fuel: u64) -> Run
    requires ready { Ready area.old len work.old }
    requires fuel_le_fuel_limit { fuel ≤ fuel_limit }
    ensures { (t : Term) → Holds area.old len t
        → Reaches t (run fuel (length area.old) t) (ran_of result) area.new }
{
    let mut size = len;
    let mut count: u64 = 0;
    let mut by_rule = [0u32; calculus::RULES];
    // Kept: a `while`, since a batch makes several steps at once.
    while count < fuel {
        if !reading::has_stop(&area[..size]) {
            return Run {
                outcome: Outcome::Finished,
                count,
                by_rule,
                size,
            };
        }
        let batch = make_steps(area, size, work, fuel - count);
        if batch.made == 0 {
            return Run {
                outcome: Outcome::NoRoom,
                count,
                by_rule,
                size,
            };
        }
        let later = batch.by_rule;
        let sum = tallies::added(by_rule, later);
        by_rule = sum;
        size = batch.size;
        count += batch.made;
    }
    let outcome = end_without_fuel(&area[..size]);
    Run {
        outcome,
        count,
        by_rule,
        size,
    }
}

// The run of the term in the first `len` bytes of the area; the work area is at least as long as the area.
#[tactic(auto, unfolding(crate::specs::Finishing::finishing_of))]
pub fn finish(area: &mut [u8], len: usize, work: &mut [u8], fuel: u64) -> Result<Run, Refused>
    ensures work_after { After.after (reply_of result) (ran_in result) area.new work.new ≡ finishing_of area.old len work.old fuel }
    ensures bounded { IfOk result (λ run. run.count ≤ fuel) }
{
    admission::admit(area, len, work, fuel)?;
    let run = run_term(area, len, work, fuel);
    let size = run.size;
    filling::clear(area, size, work);
    Ok(run)
}
