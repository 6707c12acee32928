//! What holds of the values that lines give to the inputs of a program.
#![tactic(auto)]

pub mod laws;
