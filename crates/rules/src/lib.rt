// The typing rules by name: the letter, how many premises each has, and the term that it builds of theirs.
#![tactic(auto)]

ghost use Rattle.std.specs.Prelude.{◌≡◌};
ghost use Rattle.derivation_files.specs.Line.{names, find_name, name_of};
ghost use Rattle.rules.specs.Rules.{rule_of, count_of, is_bell_text, builds_text};

use calculus::{letters, names};
use fields::is_join;

// The rules, by the letters that name them.
#[derive(Clone, Copy)]
pub enum Rule {
    J,
    R,
    H,
    A,
    F,
    I,
    B,
    S,
    K,
}

// The rule that a field names.
#[tactic(auto, unfolding(derivation_files::specs::Line::name_of))]
pub fn rule_of(field: &[u8]) -> Option<Rule>
    ensures { result ≡ rule_of (name_of field.now) }
{
    match field {
        [b] => rule_named(*b),
        _ => None,
    }
}

// The rule of a letter.
fn rule_named(b: u8) -> Option<Rule>
    ensures { result ≡ rule_of (find_name b names) }
{
    match b {
        letters::J => Some(Rule::J),
        letters::R => Some(Rule::R),
        letters::H => Some(Rule::H),
        letters::A => Some(Rule::A),
        names::F => Some(Rule::F),
        letters::I => Some(Rule::I),
        letters::B => Some(Rule::B),
        names::S => Some(Rule::S),
        names::K => Some(Rule::K),
        _ => None,
    }
}

// How many premises a rule has.
pub fn premise_count(rule: Rule) -> usize
    ensures { result ≡ count_of rule }
{
    match rule {
        Rule::J => 0,
        Rule::R => 1,
        Rule::H => 2,
        Rule::A => 2,
        Rule::F => 2,
        Rule::I => 0,
        Rule::B => 2,
        Rule::S => 2,
        Rule::K => 0,
    }
}

// Whether the term is one that the rule builds of the premises' terms.
pub fn builds(rule: Rule, term: &[u8], first: &[u8], second: &[u8]) -> bool
    ensures { result ≡ builds_text rule term.now first.now second.now }
{
    match rule {
        Rule::J => is_join(term, letters::J, &[], &[]),
        Rule::R => is_join(term, letters::R, first, &[]),
        Rule::H => is_join(term, letters::H, first, second),
        Rule::A => is_join(term, letters::A, first, second),
        Rule::F => is_join(term, letters::STOP, first, second),
        Rule::I => is_join(term, letters::I, &[], &[]),
        Rule::B => is_join(term, letters::B, first, second),
        Rule::S => is_join(term, letters::STOP, first, second),
        Rule::K => is_bell_text(term),
    }
}

// Whether a text is that of a bell.
fn is_bell_text(text: &[u8]) -> bool
    ensures { result ≡ is_bell_text text.now }
{
    match text {
        [b] => reading::is_bell(*b),
        _ => false,
    }
}
