//! What the rule check sees of a context, as laws.
#![tactic(auto)]

pub mod laws;
