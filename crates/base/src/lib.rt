// Definitions and laws of numbers, lists and tables that every layer above cites. It has no code.
#![tactic(auto)]
