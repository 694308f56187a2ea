// Document 02, No. 7: the calls on a rule book, which is lent bytes and the number of blocks in use. Every call but `show` tests every block in use.
// C lends the two apart, and each call takes them once: a struct of both would be made for one call and taken apart in it.
#![tactic(auto)]

pub mod adding;
mod lent;
pub mod lookup;
pub mod testing;
pub mod totals;
pub mod withdrawal;
