// Scanning types on bytes.
#![tactic(auto)]

ghost use Rattle.std.specs.Prelude.{◌≡◌};
ghost use Rattle.types.specs.Parse.{type_of, context_of};
ghost use Rattle.types.specs.Tests.{is_some, is_simple};
ghost use Rattle.types.specs.Scan.{parts_of, simple_end};

use calculus::marks;

// Whether the bytes are the text of a type: simple, or a context.
pub fn is_type(s: &[u8]) -> bool
    ensures { result ≡ is_some (type_of s.now) }
{
    if is_simple(s) {
        return true;
    }
    is_context(s)
}

// Whether the bytes are the text of a simple type.
pub fn is_simple(s: &[u8]) -> bool
    ensures { result ≡ is_simple (type_of s.now) }
{
    simple_end(s, 0) == s.len()
}

// Whether the bytes are the text of a context.
pub fn is_context(s: &[u8]) -> bool
    ensures { result ≡ is_some (context_of s.now) }
{
    let mut at = 0;
    // Kept: a `while`, since each turn goes on behind a simple type.
    while at < s.len() {
        if s[at] == marks::EMPTY {
            return at + 1 == s.len();
        }
        if s[at] != marks::BIND {
            return false;
        }
        at = simple_end(s, at + 1);
    }
    false
}

// The index behind the simple type that begins at `from`, and one past the end where none does.
pub fn simple_end(s: &[u8], from: usize) -> usize
    ensures { result ≡ simple_end s.now from }
{
    let mut owed: usize = 1;
    for at in from..s.len() {
        let Some(parts) = parts_of(s[at]) else {
            return s.len() + 1;
        };
        owed = owed - 1 + parts;
        if owed == 0 {
            return at + 1;
        }
    }
    s.len() + 1
}

// How many simple types the sign takes to make one; none for a byte that begins no simple type.
fn parts_of(b: u8) -> Option<usize>
    ensures { result ≡ parts_of b }
{
    if b == marks::ARROW {
        return Some(2);
    }
    if b < marks::FIRST_ATOM {
        return None;
    }
    if marks::LAST_ATOM < b {
        return None;
    }
    Some(0)
}
