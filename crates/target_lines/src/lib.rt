//! One line of the text of a target program: one spelling for each.
#![tactic(auto)]

mod laws;
pub mod line;
pub mod reading;
mod words;
pub mod writing;
