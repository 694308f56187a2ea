// The lines of a rule's program as definitions, in specs/, with their bounds, and that they are the program of its pattern. This layer has no code.
#![tactic(auto)]
