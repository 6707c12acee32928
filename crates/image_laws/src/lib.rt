//! Images of values, and what blocks are read as.
#![tactic(auto)]

pub mod laws;
