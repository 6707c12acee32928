//! How deep forks lie in the left-first run of a branch.
#![tactic(auto)]

pub mod laws;
