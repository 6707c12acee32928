//! Where the two sides of an `if` meet, and which side of `either` was taken, by the places that went.
#![tactic(auto)]

pub mod laws;
