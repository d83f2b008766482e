// Books: names, pieces with uses, lines, what is read of a book and how it is played, with their theorems. Of code it has only constants.
#![tactic(auto)]

// The small letters, and the most of them in a name (specs/Name.antt).
pub const FIRST_SMALL: u8 = 97;

pub const LAST_SMALL: u8 = 122;

pub const NAME_LIMIT: usize = 8;

// The marks around the name of a use (specs/Piece.antt).
pub const OPEN: u8 = 40;

pub const CLOSE: u8 = 41;

// The most bytes and the most lines of a book (specs/Book.antt).
pub const BOOK_LIMIT: usize = 65536;

pub const LINE_LIMIT: usize = 256;

// The bytes of a store, as many as the letters that all results may have together (specs/Play.antt).
pub const STORE_SIZE: usize = 65536;
