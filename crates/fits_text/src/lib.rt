//! A program that fits the flat tree of a typed text is sound for the text.
#![tactic(auto)]

pub mod laws;
