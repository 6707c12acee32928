//! A program runs as with procedures beside that it never calls.
#![tactic(auto)]

pub mod laws;
