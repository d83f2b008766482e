// What the program for small terms prints, as a function on bytes: no input and no output here.
#![tactic(auto)]

ghost use Rattle.std.specs.Prelude.{◌≡◌, ◌≤◌};
ghost use Rattle.slices.specs.Put.{put, behind};
ghost use Rattle.small_terms.specs.Sweep.{sweep_of};
ghost use Rattle.small_terms.specs.Answer.{swept_in};
ghost use Rattle.sweep_answers.specs.Shown.{swept_line, shown_sweep, printed_sweep};

use answer_lines::print_refusal;
use small_admission::Refused;
use small_terms::Tally;
use sweep_line::Request;

// The line for what the input asks for, put at the start of `out`; answered is its length. Where it does not fit, `out` stays and 0 is
// answered.
pub fn answer_sweep(asked: Option<Request>, out: &mut [u8]) -> usize
    ensures { (out.new ≡ put 0 (printed_sweep asked) out.old)
        × (result ≡ behind 0 (printed_sweep asked) out.old) }
{
    match asked {
        Some(request) => print_sweep(request, out),
        None => print_refusal(&Refused::NotSmall, out),
    }
}

// The line of the sweep for three numbers.
fn print_sweep(request: Request, out: &mut [u8]) -> usize
    ensures { (out.new ≡ put 0 (shown_sweep request.size (sweep_of request.size request.fuel request.area)) out.old)
        × (result ≡ behind 0 (shown_sweep request.size (sweep_of request.size request.fuel request.area)) out.old) }
{
    match small_terms::sweep(request.size, request.fuel, request.area) {
        Ok(tally) => print_tally(request.size, tally, out),
        Err(refused) => print_refusal(&refused, out),
    }
}

// The line of a tally: the size, the four numbers, and the steps divided by the finished runs, with what is left.
fn print_tally(size: u64, tally: Tally, out: &mut [u8]) -> usize
    requires { 1 ≤ tally.finished }
    ensures { (out.new ≡ put 0 (swept_line «size» (swept_in tally)) out.old)
        × (result ≡ behind 0 (swept_line «size» (swept_in tally)) out.old) }
{
    let each = tally.steps / tally.finished;
    let rest = tally.steps % tally.finished;
    let counts = numerals::decimal_length(tally.finished)
        + numerals::decimal_length(tally.spent)
        + numerals::decimal_length(tally.no_room);
    let steps = numerals::decimal_length(tally.steps)
        + numerals::decimal_length(each)
        + numerals::decimal_length(rest);
    if out.len() < numerals::decimal_length(size) + counts + steps + 7 {
        return 0;
    }
    let a = columns::append_number(size, slices::TAB, out, 0);
    let b = columns::append_number(tally.finished, slices::TAB, out, a);
    let c = columns::append_number(tally.spent, slices::TAB, out, b);
    let d = columns::append_number(tally.no_room, slices::TAB, out, c);
    let e = columns::append_number(tally.steps, slices::TAB, out, d);
    let f = columns::append_number(each, slices::TAB, out, e);
    columns::append_number(rest, slices::LINE_FEED, out, f)
}
