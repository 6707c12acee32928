//! The procedures of heaps.
#![tactic(auto)]

pub mod laws;
