// What the program for the dearest small term prints, as a function on bytes: no input and no output here.
#![tactic(auto)]

ghost use Rattle.std.specs.Prelude.{◌≡◌};
ghost use Rattle.slices.specs.Put.{put, behind};
ghost use Rattle.small_terms.specs.Dearest.{dearest_of};
ghost use Rattle.dearest_answers.specs.Shown.{shown_dearest, printed_dearest};

use answer_lines::print_refusal;
use small_admission::Refused;
use sweep_line::Request;

// The line for what the input asks for, put at the start of `out`; answered is its length. Where it does not fit, `out` stays and 0 is
// answered.
pub fn answer_dearest(asked: Option<Request>, out: &mut [u8]) -> usize
    ensures { (out.new ≡ put 0 (printed_dearest asked) out.old)
        × (result ≡ behind 0 (printed_dearest asked) out.old) }
{
    match asked {
        Some(request) => print_dearest(request, out),
        None => print_refusal(&Refused::NotSmall, out),
    }
}

// The line of the dearest small term for three numbers.
fn print_dearest(request: Request, out: &mut [u8]) -> usize
    ensures { (out.new ≡ put 0 (shown_dearest (dearest_of request.size request.fuel request.area)) out.old)
        × (result ≡ behind 0 (shown_dearest (dearest_of request.size request.fuel request.area)) out.old) }
{
    match small_terms::dearest(request.size, request.fuel, request.area) {
        Ok(finding) => {
            let text = slices::cut(&finding.text, 0, request.size as usize);
            printing::print_count(text, finding.steps, out)
        }
        Err(refused) => print_refusal(&refused, out),
    }
}
