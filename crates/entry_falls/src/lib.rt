//! Entries from before are as they were, or went.
#![tactic(auto)]

pub mod laws;
