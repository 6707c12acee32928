//! The line that is told of a program that does not fit, as a function.
#![tactic(auto)]

pub mod laws;
