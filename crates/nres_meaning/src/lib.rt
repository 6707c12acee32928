//! What specifications allow, when they can fail and when they end.
#![tactic(auto)]

pub mod laws;
