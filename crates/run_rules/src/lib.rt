// A run in portions, document 02, No. 8, as definitions with what they promise, in specs/. This layer has no code.
#![tactic(auto)]
