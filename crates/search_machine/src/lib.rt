// The search machine as definitions, in specs/, with the proof that it is document 01's search, and that held values are what it asks for. This layer has
// no code.
#![tactic(auto)]
