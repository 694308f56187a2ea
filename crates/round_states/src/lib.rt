// What a list of states in the lent table of a search by rounds stands for, as definitions and proofs, in specs/. This layer has no code.
#![tactic(auto)]
