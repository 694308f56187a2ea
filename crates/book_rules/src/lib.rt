// The rule book of document 02, No. 7, as definitions with what they promise, in specs/. This layer has no code.
#![tactic(auto)]
