// The words of room that suffice for a rule, as definitions. No code.
#![tactic(auto)]
