// What the contracts of the services, the border and the trial text leave open: nothing. The theorems are in specs/; this layer has no code.
#![tactic(auto)]
