// Document 02, No. 10: one round over the lists of the lent table. Each list gives up its first state; what follows is kept over the lists that were taken up,
// the remainders behind all of them, and at the end these are moved to stand behind the new lists.
#![tactic(auto)]

pub mod count;
pub mod pull;
pub mod rest;
pub mod sweep;
pub mod turn;
