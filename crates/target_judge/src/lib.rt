//! The lines of a target program's text, taken one by one: which may stand where, and what they make.
#![tactic(auto)]

mod fits;
pub mod judging;
pub mod state;
pub mod told;
