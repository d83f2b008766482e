// The bytes that types and contexts are written in (specs/Types.antt).
pub const FIRST_ATOM: u8 = b'a';

pub const LAST_ATOM: u8 = b'z';

// `b`: the type of bells.
pub const BELL: u8 = b'b';

// `>`: from one simple type to another.
pub const ARROW: u8 = b'>';

// `*`: a simple type in front of a context.
pub const BIND: u8 = b'*';

// `1`: the empty context.
pub const EMPTY: u8 = b'1';
