//! A program that fits is sound with only those procedures that it calls.
#![tactic(auto)]

pub mod laws;
