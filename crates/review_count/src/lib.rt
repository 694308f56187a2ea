// Over the lines of a rule's program: whether everybody passes it, and review's count.
#![tactic(auto)]

pub mod always;
pub mod count;
