// Lines of fields: what tabs part and a line feed ends. Event lines and listing lines are such lines. It has no code.
#![tactic(auto)]
