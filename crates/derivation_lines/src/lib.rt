// One line of a derivation file: what it is refused for, or that it follows.
#![tactic(auto)]

ghost use Rattle.std.specs.Prelude.{◌≡◌, length};
ghost use Rattle.calculus.specs.Parse.{term_of};
ghost use Rattle.types.specs.Tests.{is_some};
ghost use Rattle.fields.specs.Fields.{texts_now};
ghost use Rattle.derivation_lines.specs.Number.{number_of, refusal_of};
ghost use Rattle.derivation_lines.specs.TextLine.{is_well_formed, named_texts, instance_at, rule_fault, line_fault};

use fields::{SixFields, Texts, has_six, judged_at};
use instances::is_instance;
use premises::{Cited, cite, premises_fit};
use reading::Refusal;
use rules::{Rule, premise_count, rule_of};

// What is wrong with a line; specs/Number.antt gives the number of each case.
#[derive(Clone, Copy)]
pub enum Fault {
    // It has not six fields.
    NotSixFields,
    // Its context, term or type field is not well formed.
    Malformed,
    // It names no rule.
    UnknownRule,
    // A premise field is malformed, names no earlier line, or is not what its rule has there.
    BadPremise,
    // It is not an instance of its rule.
    NoInstance,
}

impl Refusal for Fault {
    ghost refusal = { refusal_of };

    fn number(&self) -> u64 {
        match *self {
            Fault::NotSixFields => 14,
            Fault::Malformed => 15,
            Fault::UnknownRule => 16,
            Fault::BadPremise => 17,
            Fault::NoInstance => 18,
        }
    }

    fn place(&self) -> usize {
        0
    }
}

// What is wrong with a line of those fields, where the lines that went before begin at `starts`.
#[tactic(auto, unfolding(crate::specs::TextLine::line_fault))]
pub fn check_line(file: &[u8], starts: &[usize], line: SixFields) -> Result<(), Fault>
    ensures { result ≡ line_fault file.now starts.now (length starts.now) line }
{
    if !has_six(file, line) {
        return Err(Fault::NotSixFields);
    }
    let own = line.own.of(file);
    if !is_well_formed(own) {
        return Err(Fault::Malformed);
    }
    let rule = rule_of(line.rule.of(file)).ok_or(Fault::UnknownRule)?;
    let first = cite(line.first.of(file), starts);
    let second = cite(line.second.of(file), starts);
    by_rule(file, rule, own, first, second)
}

// What is wrong with a well-formed line of that rule, whose premise fields name those.
fn by_rule(file: &[u8], rule: Rule, own: Texts, first: Cited, second: Cited) -> Result<(), Fault>
    ensures { result ≡ rule_fault file.now rule (texts_now own.entry) first second }
{
    if !premises_fit(premise_count(rule), first, second) {
        return Err(Fault::BadPremise);
    }
    if !follows(file, rule, own, first, second) {
        return Err(Fault::NoInstance);
    }
    Ok(())
}

// Whether the context, the term and the type are well formed.
fn is_well_formed(own: Texts) -> bool
    ensures { result ≡ is_well_formed (texts_now own.entry) }
{
    types::is_context(own.context) && is_term(own.term) && types::is_type(own.ty)
}

// Whether the bytes are the text of a term.
fn is_term(s: &[u8]) -> bool
    ensures { result ≡ is_some (term_of s.now) }
{
    reading::read(s).is_ok()
}

// Whether the line is an instance of the rule, with the lines that are named for premises.
fn follows(file: &[u8], rule: Rule, own: Texts, first: Cited, second: Cited) -> bool
    ensures { result ≡ instance_at file.now rule (texts_now own.entry) first second }
{
    is_instance(rule, own, named(file, first), named(file, second))
}

// The texts of the line that is named, and empty ones where none is. Always inlined: a call hands the three slices over in memory.
#[inline(always)]
fn named(file: &[u8], cited: Cited) -> Texts
    ensures { texts_now result ≡ named_texts file.now cited }
{
    match cited {
        Cited::Line(start) => judged_at(file, start).of(file),
        _ => Texts {
            context: &[],
            term: &[],
            ty: &[],
        },
    }
}
