// Condition 3 over the public calls' definitions: laws alone, no code.
#![tactic(auto)]
