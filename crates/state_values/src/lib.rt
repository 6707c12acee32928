//! Values put into a state of the machine at its beginning, and read from it at its end.
#![tactic(auto)]

mod beginning;
pub mod laws;
mod showing;

pub use beginning::begin;
pub use showing::results;
