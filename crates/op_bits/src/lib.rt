//! The procedures of sets and maps of numbers below a bound, with what they do.
#![tactic(auto)]

pub mod laws;
