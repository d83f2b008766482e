// The rewriting: the right side of a rule in place of its left side, in the text of a term.
#![tactic(auto)]

ghost use Rattle.std.specs.Prelude.{◌≡◌, ◌-◌, ◌<◌, length, get_or};
ghost use Rattle.calculus.specs.Letter.{letter_of};
ghost use Rattle.parts.specs.Ends.{listed};
ghost use Rattle.rewriting.specs.Rewriting as rewriting;

use calculus::letters;
use parts::Text;
use reading::is_bell;
use slices::Span;

// What a rule makes of a text: the bytes before `keep`, a letter, two parts of it, a part of it once more, and the bytes from `rest` on.
#[derive(Clone, Copy)]
pub struct Rewrite {
    // The rule's number. Kept: a number and no enum, since the papers number the rules, callers in C are told it, and uses are counted
    // by it.
    pub rule: u8,
    pub keep: usize,
    pub letter: Option<u8>,
    pub first: Span,
    pub second: Span,
    // By this part the text grows: it is empty but for rules 8 and 11.
    pub again: Span,
    pub rest: usize,
}

// No bytes.
const NOTHING: Span = Span { from: 0, to: 0 };

// Rules 1 to 3 and 12: the full stop at `p` becomes `H`; the function begins at `rest`.
fn frozen(rule: u8, p: usize, rest: usize) -> Rewrite
    ensures { result ≡ rewriting.frozen rule p rest }
{
    Rewrite {
        rule,
        keep: p,
        letter: Some(letters::H),
        first: NOTHING,
        second: NOTHING,
        again: NOTHING,
        rest,
    }
}

// Rules 5, 6, 7, 10 and 13: one part, or none, between what is kept and the rest.
fn picked(rule: u8, keep: usize, first: Span, rest: usize) -> Rewrite
    ensures { result ≡ rewriting.picked rule keep first rest }
{
    Rewrite {
        rule,
        keep,
        letter: None,
        first,
        second: NOTHING,
        again: NOTHING,
        rest,
    }
}

// Rule 4: behind the full stop `B`, the argument, and the two parts of the closure.
fn entered(keep: usize, argument: Span, closure: Span) -> Rewrite
    ensures { result ≡ rewriting.entered keep argument closure }
{
    Rewrite {
        rule: 4,
        keep,
        letter: Some(letters::B),
        first: argument,
        second: closure,
        again: NOTHING,
        rest: argument.to,
    }
}

// Rules 8, 9 and 11: a letter, the pair on the first part of the argument, and `again`, the pair or nothing, on the second.
fn spread(
    rule: u8,
    keep: usize,
    letter: Option<u8>,
    pair: Span,
    inner: Span,
    again: Span,
) -> Rewrite
    ensures { result ≡ rewriting.spread rule keep letter pair inner again }
{
    Rewrite {
        rule,
        keep,
        letter,
        first: pair,
        second: inner,
        again,
        rest: inner.to,
    }
}

// Rules 6 to 11 and 13: the parts of the pair at p + 1 end at `mid` and at `end`, where its argument begins.
fn pair_at(text: Text, p: usize, mid: usize, end: usize) -> Option<Rewrite>
    requires { (p < length text.letters.now) × (end < 65536) }
    ensures { result ≡ rewriting.on_pair (letter_of (get_or text.entry.letters.now end 0)) (listed text.entry.ends.now) text.entry.letters.now p mid end }
{
    let head = text.letter_at(end);
    let inner = end + 1;
    if head == letters::J {
        return Some(picked(
            6,
            p,
            Span {
                from: p + 2,
                to: mid,
            },
            inner,
        ));
    }
    if head == letters::R {
        return Some(picked(7, p + 1, Span { from: mid, to: end }, inner));
    }
    if head == letters::I {
        return Some(picked(10, p, NOTHING, end));
    }
    if is_bell(head) {
        return Some(picked(13, p, NOTHING, end));
    }
    let pair = Span { from: p, to: end };
    let third = text.end_of(inner);
    let first = Span {
        from: inner,
        to: third,
    };
    if head == letters::H {
        return Some(spread(8, p + 1, None, pair, first, pair));
    }
    if head == letters::A {
        return Some(spread(9, p, Some(letters::A), pair, first, NOTHING));
    }
    if head == letters::B {
        return Some(spread(11, p, Some(letters::B), pair, first, pair));
    }
    None
}

// What the rule that applies at `p` makes of the text; `None` where none applies there.
pub fn rewrite_at(text: Text, p: usize) -> Option<Rewrite>
    ensures { result ≡ rewriting.rewrite_of (listed text.entry.ends.now) text.entry.letters.now p }
{
    if text.letters.len() <= p {
        return None;
    }
    let function = p + 1;
    let head = text.letter_at(function);
    if head == letters::J {
        return Some(frozen(1, p, function));
    }
    if head == letters::R {
        return Some(frozen(2, p, function));
    }
    if head == letters::H {
        return Some(frozen(3, p, function));
    }
    if head == letters::I {
        return Some(picked(5, p, NOTHING, p + 2));
    }
    if head == letters::A {
        let end = text.end_of(function);
        let argument = Span {
            from: end,
            to: text.end_of(end),
        };
        return Some(entered(
            function,
            argument,
            Span {
                from: p + 2,
                to: end,
            },
        ));
    }
    if head == letters::B {
        let mid = text.end_of(p + 2);
        let end = text.end_of(mid);
        return pair_at(text, p, mid, end);
    }
    if is_bell(head) {
        return Some(frozen(12, p, function));
    }
    None
}

// By how much the text grows where it grows.
pub fn growth(w: Rewrite) -> usize
    ensures { result ≡ w.again.to - w.again.from }
{
    w.again.to.saturating_sub(w.again.from)
}
