// The letters by which a line names its typing rule, where they are no letters of terms (specs/Typing.antt).
pub const F: u8 = b'f';

pub const S: u8 = b's';

pub const K: u8 = b'K';
