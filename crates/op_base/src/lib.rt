//! What the procedures of several containers share: a push onto the words in front of a block, and counts.
#![tactic(auto)]

pub mod laws;
