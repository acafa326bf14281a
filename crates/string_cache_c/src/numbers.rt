//! The numbers that calls return. 0 is success, and 1 to 3 are those of `Fault`.

pub const NO_MEMORY: u32 = 1;

pub const NOT_UTF8: u32 = 5;

pub const NOT_HELD: u32 = 6;

pub const CLOSED: u32 = 7;

pub const NOT_CLOSED: u32 = 8;

pub const TOO_SMALL: u32 = 9;

pub const NOT_LIMITS: u32 = 10;

pub const NOT_WORD: u32 = 11;
