// The dialects, by the numbers that document 01 and a book's blocks have: at a cons under a multiset the first takes every place, the second one for each value.
pub const EVERY_PLACE: u32 = 1;

pub const FIRST_PLACES: u32 = 2;
