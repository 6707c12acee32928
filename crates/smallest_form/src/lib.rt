//! The translation of the smallest specifications, proved right: at most a list, at most one step, which gets an element,
//! and one number as the result.
#![tactic(auto)]

mod form;
mod program;
mod translation;

pub use translation::translate;
