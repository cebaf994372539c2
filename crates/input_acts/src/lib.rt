// Runs of lines and whole inputs among the lists of calls: what they leave and print is told by the calls that they are. It has no code.
#![tactic(auto)]
