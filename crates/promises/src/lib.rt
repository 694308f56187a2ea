// What the definitions of document 01 promise. They are theorems, in specs/; this layer has no code.
#![tactic(auto)]
