// Event lines: what a line of bytes is as an event, or which refusal it is; and how an event is written. It has no code.
#![tactic(auto)]
