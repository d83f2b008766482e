// A field or a number and the mark behind it, written into a slice. Total: the definition says what happens where they do not fit.
#![tactic(auto)]

ghost use Rattle.std.specs.Prelude.{◌≡◌, [], ◌∷◌, ◌++◌};
ghost use Rattle.slices.specs.Numeral.{decimal};
ghost use Rattle.slices.specs.Put.{put, behind};

// Writes a field and the mark behind it to index `at` of `out` and answers the index behind them; changes nothing where they do not fit.
#[tactic(auto, unfolding(slices::specs::Put::put, slices::specs::Put::behind))]
pub fn append_field(field: &[u8], mark: u8, out: &mut [u8], at: usize) -> usize
    ensures { (out.new ≡ put at (field.now ++ (mark ∷ [])) out.old)
        × (result ≡ behind at (field.now ++ (mark ∷ [])) out.old) }
{
    if out.len() <= at {
        return at;
    }
    if out.len() - at <= field.len() {
        return at;
    }
    let end = filling::append(field, 0, field.len(), out, at);
    filling::append_byte(mark, out, end)
}

// Writes a number and the mark behind it, as `append_field` does.
#[tactic(auto, unfolding(slices::specs::Put::put, slices::specs::Put::behind))]
pub fn append_number(number: u64, mark: u8, out: &mut [u8], at: usize) -> usize
    ensures { (out.new ≡ put at (decimal number ++ (mark ∷ [])) out.old)
        × (result ≡ behind at (decimal number ++ (mark ∷ [])) out.old) }
{
    if out.len() <= at {
        return at;
    }
    if out.len() - at <= numerals::decimal_length(number) {
        return at;
    }
    let last = numerals::append_decimal(number, out, at);
    filling::append_byte(mark, out, last)
}
