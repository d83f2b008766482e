// The rewrite that makes the next step of a term: the ends of parts are stored once, in a local table, and the search for the redex and the
// rewriting look them up.
#![tactic(auto)]

ghost use Rattle.std.specs.Prelude.{◌≡◌, ◌≤◌, length};
ghost use Rattle.calculus.specs.Limits.{area_limit};
ghost use Rattle.calculus.specs.Term.{Term, text};
ghost use Rattle.parts.specs.Skip.{end_at};
ghost use Rattle.parts.specs.Ends.{listed, Ends};
ghost use Rattle.reducing.specs.Makes.{MakesFrom, NextBy};

use calculus::letters;
use parts::{Text, store_ends};
use redexes::redex;
use rewriting::{Rewrite, rewrite_at};
use slices::find;

// The lengths of the tables for few letters, for some and for many, each an eighth of the next; the last is the limit of areas.
// A term gets the shortest that holds it, since a table is filled with zeros first.
const FEW: usize = 32;

const SOME: usize = 256;

const MANY: usize = 2048;

// The rewrite in the outermost application, which begins at `first`, by the ends of its parts.
fn rewrite_by(text: Text, first: usize) -> Option<Rewrite>
    ensures { Ends (listed text.entry.ends.now) text.entry.letters.now first (end_at text.entry.letters.now first)
        → MakesFrom text.entry.letters.now first result }
{
    let p = redex(text, first);
    rewrite_at(text, p)
}

// The same, with these ends stored first, in a table of N ends; the text is no longer than that.
fn rewrite_with<const N: usize>(s: &[u8], first: usize) -> Option<Rewrite>
    requires { N ≤ area_limit }
    ensures { length s.now ≤ N → MakesFrom s.now first result }
{
    let mut table = [0u16; N];
    let mut ends = &mut table[..];
    store_ends(s, first, &mut ends);
    rewrite_by(Text { letters: s, ends }, first)
}

// The rewrite that makes the next step of the term whose text is the whole slice; `None` where the term is normal.
pub fn next_rewrite(s: &[u8]) -> Option<Rewrite>
    ensures { (t : Term) → s.now ≡ text t → length s.now ≤ area_limit → NextBy t result }
{
    let first = find(s, letters::STOP);
    if first == s.len() {
        return None;
    }
    if s.len() <= FEW {
        return rewrite_with::<FEW>(s, first);
    }
    if s.len() <= SOME {
        return rewrite_with::<SOME>(s, first);
    }
    if s.len() <= MANY {
        return rewrite_with::<MANY>(s, first);
    }
    rewrite_with::<{ calculus::AREA_LIMIT }>(s, first)
}
