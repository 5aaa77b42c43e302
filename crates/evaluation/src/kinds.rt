// The kinds of code words, op / 32, in the order of the notation's Layout. A code word of any other kind does nothing.
// They are numbers: to make a value of an enum of each code word costs the loop over 64 choice words a comparison more, a fifteenth of its time.
pub const PUSH: u16 = 0;

pub const LOAD: u16 = 1;

pub const CHOOSE: u16 = 2;

pub const NEGATE: u16 = 3;

pub const BOTH: u16 = 4;

pub const EITHER: u16 = 5;

pub const STORE: u16 = 6;

pub const WHEN: u16 = 7;

pub const OTHERWISE: u16 = 8;

pub const DONE: u16 = 9;
