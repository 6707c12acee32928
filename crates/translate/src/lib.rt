//! The translation of a flat specification into a program with a derivation.
#![tactic(auto)]

mod called;
mod whole;

pub use whole::{Translation, translate};
