// The nine typing rules on texts: what each asks of contexts and types, and whether a line is an instance of it.
#![tactic(auto)]

ghost use Rattle.std.specs.Prelude.{◌≡◌};
ghost use Rattle.fields.specs.Fields.{texts_now};
ghost use Rattle.instances.specs.Behind.{simple_behind};
ghost use Rattle.instances.specs.TextInstance.{asks_text_J, asks_text_R, asks_text_H, asks_text_A};
ghost use Rattle.instances.specs.TextInstance.{asks_text_B, asks_text_S, asks_text, instance_text};

use calculus::marks;
use fields::{Texts, is_join};
use rules::{Rule, builds};

// Whether a line is an instance of the rule, with those lines for premises; a premise that the rule has not is passed over.
pub fn is_instance(rule: Rule, own: Texts, first: Texts, second: Texts) -> bool
    ensures { result ≡ instance_text rule (texts_now own.entry) (texts_now first.entry) (texts_now second.entry) }
{
    asks(rule, own, first, second) && builds(rule, own.term, first.term, second.term)
}

// What the rule asks of contexts and types; I asks for the type `1`, and K for `b`.
fn asks(rule: Rule, own: Texts, first: Texts, second: Texts) -> bool
    ensures { result ≡ asks_text rule (texts_now own.entry) (texts_now first.entry) (texts_now second.entry) }
{
    match rule {
        Rule::J => asks_j(own),
        Rule::R => asks_r(own, first),
        Rule::H => asks_h(own, first, second),
        Rule::A => asks_a(own, first, second),
        Rule::F => asks_h(own, first, second),
        Rule::I => is_join(own.ty, marks::EMPTY, &[], &[]),
        Rule::B => asks_b(own, first, second),
        Rule::S => asks_s(own, first, second),
        Rule::K => is_join(own.ty, marks::BELL, &[], &[]),
    }
}

// Rule J: the context is `*` U D, the type U.
fn asks_j(own: Texts) -> bool
    ensures { result ≡ asks_text_J (texts_now own.entry) }
{
    simple_behind(own.context) == own.ty
}

// Rule R: the context is `*` T D, the type simple; the premise has it in D.
fn asks_r(own: Texts, first: Texts) -> bool
    ensures { result ≡ asks_text_R (texts_now own.entry) (texts_now first.entry) }
{
    is_join(
        own.context,
        marks::BIND,
        simple_behind(own.context),
        first.context,
    ) && types::is_simple(own.ty)
        && first.ty == own.ty
}

// Rules H and f: in one context the premises have `>` U T and U; the type is T.
fn asks_h(own: Texts, first: Texts, second: Texts) -> bool
    ensures { result ≡ asks_text_H (texts_now own.entry) (texts_now first.entry) (texts_now second.entry) }
{
    first.context == own.context
        && second.context == own.context
        && is_join(first.ty, marks::ARROW, second.ty, own.ty)
}

// Rule A: the type is `>` U T; in the context the first premise has D, and the second has T in `*` U D.
fn asks_a(own: Texts, first: Texts, second: Texts) -> bool
    ensures { result ≡ asks_text_A (texts_now own.entry) (texts_now first.entry) (texts_now second.entry) }
{
    let argument = simple_behind(own.ty);
    first.context == own.context
        && is_join(own.ty, marks::ARROW, argument, second.ty)
        && is_join(second.context, marks::BIND, argument, first.ty)
}

// Rule B: in one context the premises have U and D; the type is `*` U D.
fn asks_b(own: Texts, first: Texts, second: Texts) -> bool
    ensures { result ≡ asks_text_B (texts_now own.entry) (texts_now first.entry) (texts_now second.entry) }
{
    first.context == own.context
        && second.context == own.context
        && is_join(own.ty, marks::BIND, first.ty, second.ty)
}

// Rule s: in the context the first premise has D; the second has the type in D.
fn asks_s(own: Texts, first: Texts, second: Texts) -> bool
    ensures { result ≡ asks_text_S (texts_now own.entry) (texts_now first.entry) (texts_now second.entry) }
{
    first.context == own.context && second.context == first.ty && second.ty == own.ty
}

// The simple type that stands behind the first byte of a text, and nothing where none does.
#[tactic(auto, unfolding(crate::specs::Behind::simple_behind))]
pub fn simple_behind(w: &[u8]) -> &[u8]
    ensures { result.now ≡ simple_behind w.now }
{
    w.get(1..types::simple_end(w, 1)).unwrap_or(&[])
}
