//! Calls of the procedures of a text: when they are allowed, and what they take and give.
#![tactic(auto)]

mod call;
pub mod laws;
mod reps;
mod sig;

pub use call::{call_shapes, lists, take_call};
pub use sig::{Sig, sig_of};
