// The search for the redex: the application to which the next step's rule applies.
#![tactic(auto)]

ghost use Rattle.std.specs.Prelude.{◌≤◌, length};
ghost use Rattle.parts.specs.Ends.{listed};
ghost use Rattle.redexes.specs.Moves.{Move, Leads};

use calculus::letters;
use parts::Text;

// Where the search goes from the application at `p`; `p` itself where a rule applies.
fn next_place(text: Text, p: usize) -> usize
    requires { p ≤ length text.letters.now }
    ensures { Move (listed text.entry.ends.now) text.entry.letters.now p result }
{
    let head = text.letter_at(p + 1);
    if head == letters::STOP {
        return p + 1;
    }
    if head == letters::B {
        let end = text.end_of(p + 1);
        if text.letter_at(end) == letters::STOP {
            return end;
        }
        return p;
    }
    p
}

// The index of the redex in the application at `first` of a term's text.
pub fn redex(text: Text, first: usize) -> usize
    ensures { Leads (listed text.entry.ends.now) text.entry.letters.now first result }
{
    if text.letters.len() <= first {
        return first;
    }
    let mut p = first;
    let mut q = next_place(text, p);
    while p < q {
        p = q;
        q = next_place(text, p);
    }
    p
}
