// The other search order of document 02, No. 10, as definitions with what they promise, in specs/. This layer has no code.
#![tactic(auto)]
