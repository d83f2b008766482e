// The fingerprint of bytes: 32 bits by which a catalogue passes over most results without comparing them.
#![tactic(auto)]

ghost use Rattle.std.specs.Prelude.{◌≡◌, ◌*◌, ◌%◌};
ghost use Rattle.words.specs.Word.{word_limit};
ghost use Rattle.fingerprints.specs.Print.{print_of};

// 31 times a number, less what 32 bits do not hold: the helper for the product that is asked for (DECISIONS, Forms asked for in the code).
fn times_31(n: u32) -> u32
    ensures { result ≡ 31 * n % word_limit }
{
    n.wrapping_mul(31)
}

// The fingerprint of bytes, any number of them.
#[tactic(auto, unfolding(crate::specs::Print::print_of))]
pub fn fingerprint(bytes: &[u8]) -> u32
    ensures { result ≡ print_of bytes.now }
{
    let mut value: u32 = 0;
    for b in bytes {
        value = times_31(value).wrapping_add(u32::from(*b));
    }
    value
}
