//! The entries of a context as a stack, and what is seen of it and given back at a mark.
#![tactic(auto)]

pub mod laws;
