//! What sides and loops leave of the entries from before.
#![tactic(auto)]

pub mod laws;
