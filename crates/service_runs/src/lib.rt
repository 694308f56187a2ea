// Document 02, No. 8: a run that is opened once and then advanced by some steps at a time.
#![tactic(auto)]

pub mod going;
pub mod opening;
pub mod run;
