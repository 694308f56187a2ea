// The automaton reads a text as the notation's grammar does, in specs/. This layer has no code.
#![tactic(auto)]
