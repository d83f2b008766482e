// Matching the claims of two derivation files.
#![tactic(auto)]

ghost use Rattle.std.specs.Prelude.{◌≡◌};
ghost use Rattle.fields.specs.Fields.{texts_now};
ghost use Rattle.matching.specs.Matching.{same_texts, matching_of};
ghost use Rattle.matching.specs.Answer.{answer_of};

use checking::{Refused, check_claim};
use fields::Texts;

// Whether the last lines of two derivation files claim the same context and type: equal byte for byte. What checking refuses of the first
// file, or else of the second, is refused unaltered.
#[tactic(auto, using(crate::proofs::Verdict::first_refused, crate::proofs::Verdict::second_refused, crate::proofs::Verdict::both_answered))]
pub fn match_claims(first: &[u8], second: &[u8]) -> Result<bool, Refused>
    ensures { answer_of result ≡ matching_of first.now second.now }
{
    let one = check_claim(first)?;
    let two = check_claim(second)?;
    Ok(same_claim(one.claim.of(first), two.claim.of(second)))
}

// Whether the contexts and the types are the same.
fn same_claim(one: Texts, two: Texts) -> bool
    ensures { result ≡ same_texts (texts_now one.entry) (texts_now two.entry) }
{
    one.context == two.context && one.ty == two.ty
}
