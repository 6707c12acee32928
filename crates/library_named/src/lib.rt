//! The library's procedures and the names by which texts call them.
#![tactic(auto)]

pub mod laws;
