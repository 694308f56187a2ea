// Laws of the definitions that the proofs of the code rest on. They are in specs/; this layer has no code.
#![tactic(auto)]
