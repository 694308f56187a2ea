// The trial program's output, written.
#![tactic(auto)]

mod print;
pub mod report;
pub mod rows;
