//! Printing refuses exactly where the rule check does.
#![tactic(auto)]

pub mod laws;
