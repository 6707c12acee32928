//! What fits has the shape of its specification.
#![tactic(auto)]

pub mod laws;
