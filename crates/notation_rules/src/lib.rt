// Egison's notation for rules as definitions, in specs/, with the proof that what is written is read back. This layer has no code.
#![tactic(auto)]
