// The fields of an event (document 01, "fields"): definitions and laws.
#![tactic(auto)]
