//! Blocks that stand in a store before a run.
#![tactic(auto)]

pub mod law;
pub mod put;
pub mod root;
