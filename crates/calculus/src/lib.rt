// What code names of the calculus: its letters, the marks of types, the names of typing rules, how many rules there are, and the
// limits. The theory is in specs/ and proofs/.
#![tactic(auto)]

pub mod letters;
pub mod marks;
pub mod names;

// How many rules there are (specs/Rule.antt).
pub const RULES: usize = 13;

// The most bytes that a term area has (specs/Limits.antt).
pub const AREA_LIMIT: usize = 16384;

// The most fuel that a run is given.
pub const FUEL_LIMIT: u64 = 1000000;

// The most bytes that a derivation file has.
pub const FILE_LIMIT: usize = 65536;

// The most lines that a derivation file has.
pub const LINE_LIMIT: usize = 1024;
