//! The rows of the library are sound for programs that fit.
#![tactic(auto)]

pub mod laws;
