//! What the following of a derivation keeps of the state where it began.
#![tactic(auto)]

pub mod laws;
