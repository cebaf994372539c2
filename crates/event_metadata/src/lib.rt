// The metadata of an element.
#![tactic(auto)]

pub mod values;
