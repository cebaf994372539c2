// What an event is to do, decided from its line and the place of its reader: definitions and laws.
#![tactic(auto)]
