// What an event is to do.
#![tactic(auto)]

pub mod tasks;
