//! What a run begins with, once its inputs stand in a store.
#![tactic(auto)]

pub mod laws;
