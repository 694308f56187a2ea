// The tags of a target, numbers of document 01 as those of a matcher are.
pub const INTEGER: u32 = 0;

pub const COLLECTION: u32 = 1;

pub const TUPLE: u32 = 2;
