// RFC 3339 itself: what a date-time is, and which of them the timestamp reader takes. It has no code.
#![tactic(auto)]
