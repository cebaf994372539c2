// Lists of calls on an overlay: laws alone, no code.
#![tactic(auto)]
