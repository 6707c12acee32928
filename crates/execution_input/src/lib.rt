//! What an input of `exec` is: a program, and values for its inputs.
#![tactic(auto)]

mod reading;

pub use reading::{Unrun, read_execution};
