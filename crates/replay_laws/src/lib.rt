//! Laws of replays: each has one answer, and what is answered of a sound program.
#![tactic(auto)]

pub mod laws;
