// What the other search order of document 02, No. 10, promises: theorems over the definitions of round_rules, in specs/. This layer has no code.
#![tactic(auto)]
