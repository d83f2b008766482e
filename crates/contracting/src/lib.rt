// The rules in the arena: what a rule gives is built at the top, of the parts that its left side has.
#![tactic(auto)]

ghost use Rattle.std.specs.Prelude.{◌≡◌, get_or};
ghost use Rattle.calculus.specs.Letter.{Letter, byte};
ghost use Rattle.calculus.specs.Term.{Term};
ghost use Rattle.calculus.specs.Order.{Next, next};
ghost use Rattle.cells.specs.Cell.{letter_in};
ghost use Rattle.contracting.specs.Contracting.{Redex, Contractible, Contracts};
ghost use Rattle.contracting.specs.Groups.{Freezes, Spreads};

use calculus::letters;
use cells::{first_in, letter_in, node, second_in};

// What a rule has given: its number, the new top, and the cell of the result.
#[derive(Clone, Copy)]
pub struct Contracted {
    pub rule: u8,
    pub top: usize,
    pub result: usize,
}

// Rules 1 to 3 and 12, by the function's letter.
fn freezing_rule(letter: u8) -> u8
    ensures { (t u : Term) → Freezes letter t → next (Term.app t u) ≡ Next.step result (Term.H t u) }
{
    if letter == letters::J {
        return 1;
    }
    if letter == letters::R {
        return 2;
    }
    if letter == letters::H {
        return 3;
    }
    12
}

// Rule 4: the pair of argument and environment is applied to the body.
fn enter(cells: &mut [u64], top: usize, function: usize, argument: usize) -> Contracted
    requires contractible { Contractible cells.old top function argument }
    requires function_value { letter_in (get_or cells.old function 0) ≡ byte Letter.A }
    ensures { (t u : Term) → Redex cells.old top function argument t u
        → Contracts cells.old top t u cells.new result.rule result.top result.result }
{
    let closure = cells[function];
    let environment = first_in(closure);
    let body = second_in(closure);
    node(cells, top, letters::B, argument, environment);
    node(cells, top + 1, letters::STOP, top, body);
    Contracted {
        rule: 4,
        top: top + 2,
        result: top + 1,
    }
}

// Rules 8 and 11: the pair is applied to both parts of the argument.
fn spread(
    cells: &mut [u64],
    top: usize,
    function: usize,
    argument: usize,
    letter: u8,
    rule: u8,
) -> Contracted
    requires contractible { Contractible cells.old top function argument }
    requires function_value { letter_in (get_or cells.old function 0) ≡ byte Letter.B }
    requires spreads { Spreads (letter_in (get_or cells.old argument 0)) letter rule }
    ensures { (t u : Term) → Redex cells.old top function argument t u
        → Contracts cells.old top t u cells.new result.rule result.top result.result }
{
    let term = cells[argument];
    let first = first_in(term);
    let second = second_in(term);
    node(cells, top, letters::STOP, function, first);
    node(cells, top + 1, letters::STOP, function, second);
    node(cells, top + 2, letter, top, top + 1);
    Contracted {
        rule,
        top: top + 3,
        result: top + 2,
    }
}

// Rules 6 to 11 and 13: the function is a pair.
fn substitute(cells: &mut [u64], top: usize, function: usize, argument: usize) -> Contracted
    requires contractible { Contractible cells.old top function argument }
    requires function_value { letter_in (get_or cells.old function 0) ≡ byte Letter.B }
    ensures { (t u : Term) → Redex cells.old top function argument t u
        → Contracts cells.old top t u cells.new result.rule result.top result.result }
{
    let term = cells[argument];
    let letter = letter_in(term);
    if letter == letters::J {
        let result = first_in(cells[function]);
        return Contracted {
            rule: 6,
            top,
            result,
        };
    }
    if letter == letters::R {
        let substitution = second_in(cells[function]);
        let index = first_in(term);
        node(cells, top, letters::STOP, substitution, index);
        return Contracted {
            rule: 7,
            top: top + 1,
            result: top,
        };
    }
    if letter == letters::H {
        return spread(cells, top, function, argument, letters::STOP, 8);
    }
    if letter == letters::B {
        return spread(cells, top, function, argument, letters::B, 11);
    }
    if letter == letters::A {
        let environment = first_in(term);
        let body = second_in(term);
        node(cells, top, letters::STOP, function, environment);
        node(cells, top + 1, letters::A, top, body);
        return Contracted {
            rule: 9,
            top: top + 2,
            result: top + 1,
        };
    }
    let rule = if letter == letters::I { 10 } else { 13 };
    Contracted {
        rule,
        top,
        result: argument,
    }
}

// Applies the rule for the application of one cell to another.
pub fn contract(cells: &mut [u64], top: usize, function: usize, argument: usize) -> Contracted
    requires { Contractible cells.old top function argument }
    ensures { (t u : Term) → Redex cells.old top function argument t u
        → Contracts cells.old top t u cells.new result.rule result.top result.result }
{
    let letter = letter_in(cells[function]);
    if letter == letters::B {
        return substitute(cells, top, function, argument);
    }
    if letter == letters::A {
        return enter(cells, top, function, argument);
    }
    if letter == letters::I {
        return Contracted {
            rule: 5,
            top,
            result: argument,
        };
    }
    node(cells, top, letters::H, function, argument);
    Contracted {
        rule: freezing_rule(letter),
        top: top + 1,
        result: top,
    }
}
