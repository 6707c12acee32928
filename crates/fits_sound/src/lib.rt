//! What fits is sound.
#![tactic(auto)]

pub mod laws;
