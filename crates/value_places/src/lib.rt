// Held values: what is left of a value of the target, as the index of its tag and 64 marks.
#![tactic(auto)]

pub mod places;
