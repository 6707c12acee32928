//! The bodies of a specification and of its procedures: what they begin with, and what is refused at their ends.
#![tactic(auto)]

mod beginning;
mod ending;
pub mod laws;
mod owing;

pub use beginning::begin_body;
pub use ending::{Header, end_body};
