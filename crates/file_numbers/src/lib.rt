// The answers of the operations on derivation files, each as one number for callers in C.
#![tactic(auto)]

ghost use Rattle.std.specs.Prelude.{◌≡◌};
ghost use Rattle.checking.specs.Answer.{answer_of as checkingAnswer};
ghost use Rattle.matching.specs.Answer.{answer_of as matchingAnswer};
ghost use Rattle.codes.specs.Encoding.{check_number, match_number};

use checking::Refused;

// The number of checking's answer.
#[tactic(auto, unfolding(codes::specs::Encoding::check_number))]
pub fn check_number(answer: Result<usize, Refused>) -> u64
    ensures { result ≡ check_number (checkingAnswer answer) }
{
    match answer {
        Ok(lines) => codes::narrow(120, lines, 0),
        Err(refused) => codes::refused(&refused),
    }
}

// The number of matching's answer.
#[tactic(auto, unfolding(codes::specs::Encoding::match_number))]
pub fn match_number(answer: Result<bool, Refused>) -> u64
    ensures { result ≡ match_number (matchingAnswer answer) }
{
    match answer {
        Ok(true) => codes::narrow(180, 0, 0),
        Ok(false) => codes::narrow(181, 0, 0),
        Err(refused) => codes::refused(&refused),
    }
}
