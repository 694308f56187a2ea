// The tags of a matcher, as document 01 has them in the words that the host lends: the definitions of the readers are over numbers, and other numbers are read too.
pub const SOMETHING: u32 = 0;

pub const INTEGER: u32 = 1;

pub const LIST: u32 = 2;

pub const MULTISET: u32 = 3;

pub const TUPLE: u32 = 4;
