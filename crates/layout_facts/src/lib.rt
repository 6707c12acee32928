//! What the ten layouts have in common: what a piece that represents a value has of the heap.
#![tactic(auto)]

pub mod laws;
