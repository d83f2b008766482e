// Catalogues: what they are, their stores as bytes, and entries, with their theorems. Of code it has only constants.
#![tactic(auto)]

// The most results of a catalogue, and the most letters of all of them together (specs/Catalogue.antt).
pub const ENTRY_LIMIT: usize = 256;

pub const LETTER_LIMIT: usize = 65536;

// The bytes that each result has in front, where the texts begin, and the bytes of a store (specs/Store.antt).
pub const ENTRY_SIZE: usize = 8;

pub const TEXTS_AT: usize = 2048;

pub const STORE_SIZE: usize = 67584;
