// Document 02, No. 10: the search by rounds, over the step and the next choice of the search. The waiting states are kept in a table that the game lends.
#![tactic(auto)]

pub mod first;
pub mod remainder;
