//! The canonical text of a specification.
#![tactic(auto)]

mod blocks;
mod exprs;
mod heads;
pub mod laws;
mod words;

pub use blocks::print_spec;
