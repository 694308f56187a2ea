// The instructions of a program's lines, by name: numbers, as `lines_of` of the definitions and the table of lines have them. (As an enum, in an array of
// its own, T5 of bench/speed.rs takes 91 instructions a step and T9 97, read from the table 102 and 108; their bars are 85 and 92.)

// The end of the rule: no atom is left.
pub const END: u16 = 0;

// The same atom under something.
pub const SAME: u16 = 1;

// Tags 0, 1 and 2: a wildcard, a variable, a constant.
pub const DROP: u16 = 2;

pub const BIND: u16 = 3;

pub const CONSTANT: u16 = 4;

// Tag 3 under integer, and under another matcher.
pub const SUM: u16 = 5;

pub const EQUAL: u16 = 6;

pub const NIL: u16 = 7;

pub const LIST_CONS: u16 = 8;

pub const MULTISET_CONS: u16 = 9;

pub const JOIN: u16 = 10;

// A tuple of two parts, of three, of four.
pub const PAIR: u16 = 11;

pub const TRIPLE: u16 = 12;

pub const QUADRUPLE: u16 = 13;

pub const AND: u16 = 14;

pub const OR: u16 = 15;

pub const NOT: u16 = 16;

// The end of what is inside a not, the line between the two sides of an or, and the end of an or.
pub const NOT_END: u16 = 17;

pub const OR_OTHER: u16 = 18;

pub const OR_END: u16 = 19;
