//! The paths through a flat tree, in the form that a proof about code goes by.
#![tactic(auto)]

pub mod laws;
