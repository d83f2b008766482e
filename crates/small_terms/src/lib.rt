// Small terms and their runs: every term of a size from 1 to 7 in the seven letters that are no bells is run, in byte order.
#![tactic(auto)]

ghost use Rattle.std.specs.Prelude.{◌≡◌, ◌≤◌, ◌<◌, length};
ghost use Rattle.calculus.specs.Limits.{fuel_limit};
ghost use Rattle.finishing.specs.Answer.{outcome_of};
ghost use Rattle.small_texts.specs.Texts.{ways};
ghost use Rattle.small_admission.specs.Admission.{Admitted};
ghost use Rattle.small_terms.specs.Sweep.{sweep_of};
ghost use Rattle.small_terms.specs.Dearest.{dearest_of};
ghost use Rattle.small_terms.specs.Answer.{swept_in, answer_of, lead_in, found_as, found_in};
ghost use Rattle.small_terms.specs.Loop.{Ready, Ran, with_run, most_terms, Few, Summed, with_later, Leads};

use finishing::{Outcome, Run};
use small_admission::Refused;

// What the runs came to: how many finished, were spent and had no room, and the steps of the finished ones in all.
#[derive(Clone, Copy, Default)]
pub struct Tally {
    pub finished: u64,
    pub spent: u64,
    pub no_room: u64,
    pub steps: u64,
}

// The dearest run so far: its term's index, and its steps.
#[derive(Clone, Copy)]
struct Lead {
    index: u64,
    steps: u64,
}

// What the runs came to, and the dearest of them, if any finished.
#[derive(Clone, Copy)]
struct Runs {
    tally: Tally,
    lead: Option<Lead>,
}

// The dearest small term: its text, zeros behind it, and the steps of its run.
#[derive(Clone, Copy)]
pub struct Finding {
    pub text: [u8; small_texts::LARGEST_SIZE],
    pub steps: u64,
}

// The run of the small term with that index.
fn run_one(n: usize, index: u64, area: &mut [u8], work: &mut [u8], fuel: u64) -> Run
    requires ready { Ready n fuel area.old work.old }
    requires index_bound { index < ways 1 n }
    ensures { Ran n index fuel (length area.old) (outcome_of result.outcome) result.count }
{
    small_texts::write_text(&mut area[..n], index);
    finishing::finish(area, n, work, fuel).unwrap()
}

// A tally with one run more.
fn counted(tally: Tally, run: Run) -> Tally
    requires few { Few most_terms (swept_in tally) }
    requires count_le_fuel_limit { run.count ≤ fuel_limit }
    ensures { swept_in result ≡ with_run (outcome_of run.outcome) run.count (swept_in tally) }
{
    match run.outcome {
        Outcome::Finished => Tally {
            finished: tally.finished + 1,
            steps: tally.steps + run.count,
            ..tally
        },
        Outcome::Spent => Tally {
            spent: tally.spent + 1,
            ..tally
        },
        Outcome::NoRoom => Tally {
            no_room: tally.no_room + 1,
            ..tally
        },
    }
}

// The dearest run so far, with one more. It goes on leading unless the later run makes more steps.
fn overtaken(lead: Option<Lead>, index: u64, run: Run) -> Option<Lead>
    ensures { lead_in result ≡ with_later (outcome_of run.outcome) index run.count (lead_in lead) }
{
    let Outcome::Finished = run.outcome else {
        return lead;
    };
    match lead {
        Some(first) if run.count <= first.steps => lead,
        _ => Some(Lead {
            index,
            steps: run.count,
        }),
    }
}

// The runs of all small terms of size n, in byte order.
fn run_all(n: usize, area: &mut [u8], work: &mut [u8], fuel: u64) -> Runs
    requires { Ready n fuel area.old work.old }
    ensures { Summed n fuel (length area.old) (ways 1 n) (swept_in result.tally)
        × Leads n fuel (length area.old) (ways 1 n) (lead_in result.lead) }
{
    let terms = small_texts::how_many(n);
    let mut tally = Tally::default();
    let mut lead = None;
    for i in 0..terms {
        let run = run_one(n, i, area, work, fuel);
        tally = counted(tally, run);
        lead = overtaken(lead, i, run);
    }
    Runs { tally, lead }
}

// The runs of all small terms of size n in areas of that size.
fn run_in(n: usize, area: usize, fuel: u64) -> Runs
    requires { Admitted n fuel area }
    ensures { Summed n fuel area (ways 1 n) (swept_in result.tally) × Leads n fuel area (ways 1 n) (lead_in result.lead) }
{
    let mut term = [0u8; calculus::AREA_LIMIT];
    let mut work = [0u8; calculus::AREA_LIMIT];
    run_all(n, &mut term[..area], &mut work[..area], fuel)
}

// Runs every small term of size n with that fuel in an area of that size.
pub fn sweep(n: u64, fuel: u64, area: u64) -> Result<Tally, Refused>
    ensures { answer_of result ≡ sweep_of n fuel area }
{
    small_admission::admit(n, fuel, area)?;
    let runs = run_in(n as usize, area as usize, fuel);
    Ok(runs.tally)
}

// Finds the small term of size n whose run, with that fuel in an area of that size, finishes with the most steps. Where several do, it is
// the earliest.
pub fn dearest(n: u64, fuel: u64, area: u64) -> Result<Finding, Refused>
    ensures { found_in result ≡ found_as (dearest_of n fuel area) }
{
    small_admission::admit(n, fuel, area)?;
    let size = n as usize;
    let runs = run_in(size, area as usize, fuel);
    let lead = runs.lead.unwrap();
    let mut text = [0u8; small_texts::LARGEST_SIZE];
    small_texts::write_text(&mut text[..size], lead.index);
    Ok(Finding {
        text,
        steps: lead.steps,
    })
}
