// What a run holds between two advances, as definitions and proofs, in specs/. This layer has no code.
#![tactic(auto)]
