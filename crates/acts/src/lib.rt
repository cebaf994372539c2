// Acts from events and calls: the turn of a reader, and which acts a list of answered calls accepted. It has no code.
#![tactic(auto)]
