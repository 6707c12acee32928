//! What fits a typed text as a whole is right for it.
#![tactic(auto)]

pub mod laws;
