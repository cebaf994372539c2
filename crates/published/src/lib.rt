// The published Rust (NOTICE), function by function, as definitions: a transcript on purpose, in its names and its order, with its own state, so that each can be held beside its
// Rust function. It takes nothing from document 01 nor from the library, and no contract cites it: what the library is to do is written from document 01, in the other crates. It is
// what `refines` compares the library with, and judge/definitions compares with the built Rust. It has no code.
#![tactic(auto)]
