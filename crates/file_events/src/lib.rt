// A file of legal markups is its event lines: the laws that carry every theorem over event lines to files. It has no code.
#![tactic(auto)]
