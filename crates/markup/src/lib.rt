// Markup of XML 1.0: how it is written, what event it means, and an automaton that reads it, over characters and over bytes. It has no code.
#![tactic(auto)]
