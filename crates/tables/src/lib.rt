// The tables that a run works over: each is one flat array of numbers, and only the functions here know what lies where in it. (With an array for each
// number, in a struct, a call takes 64 instructions more.)
#![tactic(auto)]

pub mod instruction;
pub mod line;
pub mod place;
pub mod slot;
