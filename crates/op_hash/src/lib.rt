//! The procedures of hash tables.
#![tactic(auto)]

pub mod laws;
