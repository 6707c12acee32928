//! What each answer to an input of `replay` tells of it.
#![tactic(auto)]

pub mod cause;
pub mod laws;

pub use cause::Cause;
