// What the writer's code puts on a page is the notation of the rule, in specs/. This layer has no code.
#![tactic(auto)]
