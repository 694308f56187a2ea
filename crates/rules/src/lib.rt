// The rules of document 01. They are definitions, in specs/; this layer has no code.
#![tactic(auto)]
