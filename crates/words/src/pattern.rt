// The tags of a pattern, numbers of document 01 as those of a matcher are.
pub const WILDCARD: u32 = 0;

pub const VARIABLE: u32 = 1;

pub const CONSTANT: u32 = 2;

pub const VALUE: u32 = 3;

pub const NIL: u32 = 4;

pub const CONS: u32 = 5;

pub const JOIN: u32 = 6;

pub const TUPLE: u32 = 7;

pub const AND: u32 = 8;

pub const OR: u32 = 9;

pub const NOT: u32 = 10;
