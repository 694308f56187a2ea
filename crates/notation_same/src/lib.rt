// The tokens that the scanner's code gives are the notation's, in specs/. This layer has no code.
#![tactic(auto)]
