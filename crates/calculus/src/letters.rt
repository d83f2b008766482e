// The bytes of the letters that terms are written in (specs/Letter.antt).
pub const J: u8 = b'J';

pub const R: u8 = b'R';

pub const H: u8 = b'H';

pub const A: u8 = b'A';

pub const I: u8 = b'I';

pub const B: u8 = b'B';

// The full stop: an application.
pub const STOP: u8 = b'.';

// The bells: every digit, `E` and `T` (specs/Bell.antt).
pub const FIRST_DIGIT: u8 = b'0';

pub const LAST_DIGIT: u8 = b'9';

pub const ELEVEN: u8 = b'E';

pub const TWELVE: u8 = b'T';
