//! The lines of a derivation as those that are followed.
#![tactic(auto)]

pub mod laws;
