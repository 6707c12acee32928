//! What is sound for the flat tree of a text is sound for the text.
#![tactic(auto)]

pub mod laws;
