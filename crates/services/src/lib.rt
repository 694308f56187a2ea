// The services of document 01.
#![tactic(auto)]

pub mod matching;
pub mod picks;
pub mod refusal;
pub mod review;
pub mod testing;
