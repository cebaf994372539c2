// That the library does what the published Rust does, as `published` sets it out: condition 2. It has no code.
#![tactic(auto)]
