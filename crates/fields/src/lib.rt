// The fields of a line, by where they stand, and their texts.
#![tactic(auto)]

ghost use Rattle.std.specs.Prelude.{◌≡◌, ◌∷◌, ◌++◌};
ghost use Rattle.slices.specs.Same.{same};
ghost use Rattle.fields.specs.Fields.{stop_at, behind_in, field_at, judged_at, six_at, is_tab, is_stop, has_six, texts_at, texts_now};

use slices::Span;

// Where the context, the term and the type of a line stand.
#[derive(Clone, Copy)]
pub struct Judged {
    pub context: Span,
    pub term: Span,
    pub ty: Span,
}

// The context, the term and the type of a line.
#[derive(Clone, Copy)]
pub struct Texts<'a> {
    pub context: &'a [u8],
    pub term: &'a [u8],
    pub ty: &'a [u8],
}

// Where the six fields of a line stand.
#[derive(Clone, Copy)]
pub struct SixFields {
    pub own: Judged,
    pub rule: Span,
    pub first: Span,
    pub second: Span,
}

impl Judged {
    // The texts that stand there in a file.
    pub fn of(self, file: &[u8]) -> Texts
        ensures { texts_now result ≡ texts_at self file.now }
    {
        Texts {
            context: self.context.of(file),
            term: self.term.of(file),
            ty: self.ty.of(file),
        }
    }
}

// The six fields from an index on; a tab ends each but the last, which a line feed ends, where `has_six` says so.
#[tactic(auto, unfolding(crate::specs::Fields::six_at))]
pub fn six_at(file: &[u8], from: usize) -> SixFields
    ensures { result ≡ six_at file.now from }
{
    let own = judged_at(file, from);
    let rule = field_at(file, behind(file, own.ty.to));
    let first = field_at(file, behind(file, rule.to));
    let second = field_at(file, behind(file, first.to));
    SixFields {
        own,
        rule,
        first,
        second,
    }
}

// The first three fields from an index on.
#[tactic(auto, unfolding(crate::specs::Fields::judged_at))]
pub fn judged_at(file: &[u8], from: usize) -> Judged
    ensures { result ≡ judged_at file.now from }
{
    let context = field_at(file, from);
    let term = field_at(file, behind(file, context.to));
    let ty = field_at(file, behind(file, term.to));
    Judged { context, term, ty }
}

// Whether a tab ends each field but the last.
pub fn has_six(file: &[u8], line: SixFields) -> bool
    ensures { result ≡ has_six file.now line }
{
    is_tab(file, line.own.context.to)
        && is_tab(file, line.own.term.to)
        && is_tab(file, line.own.ty.to)
        && is_tab(file, line.rule.to)
        && is_tab(file, line.first.to)
        && !is_tab(file, line.second.to)
}

fn is_tab(file: &[u8], at: usize) -> bool
    ensures { result ≡ is_tab file.now at }
{
    slices::byte_at(file, at) == slices::TAB
}

// The field that begins at an index.
fn field_at(file: &[u8], from: usize) -> Span
    ensures { result ≡ field_at file.now from }
{
    Span {
        from,
        to: stop_from(file, from),
    }
}

// The index behind, within the file.
fn behind(file: &[u8], at: usize) -> usize
    ensures { result ≡ behind_in file.now at }
{
    if at < file.len() {
        return at + 1;
    }
    at
}

// The index of the first tab or line feed from an index on, and the end where there is none.
// Kept: a loop over indices, since what a `position` in the rest finds is a sum of lengths, which costs more at each further field.
fn stop_from(file: &[u8], from: usize) -> usize
    ensures { result ≡ stop_at file.now from }
{
    for at in from..file.len() {
        if is_stop(file[at]) {
            return at;
        }
    }
    from.max(file.len())
}

// Whether a byte ends a field.
fn is_stop(b: u8) -> bool
    ensures { result ≡ is_stop b }
{
    b == slices::TAB || b == slices::LINE_FEED
}

// Whether a text is a byte and then two texts: the lengths decide first, since they cost least.
pub fn is_join(w: &[u8], head: u8, a: &[u8], b: &[u8]) -> bool
    ensures { result ≡ same w.now (head ∷ (a.now ++ b.now)) }
{
    let Some((first, rest)) = w.split_first() else {
        return false;
    };
    if rest.len() != a.len() + b.len() {
        return false;
    }
    let (front, back) = rest.split_at(a.len());
    *first == head && front == a && back == b
}
