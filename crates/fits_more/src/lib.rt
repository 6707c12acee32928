//! What fits with some procedures fits with more.
#![tactic(auto)]

pub mod laws;
