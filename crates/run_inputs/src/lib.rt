//! The inputs of a run, put into a store.
#![tactic(auto)]

mod place;

pub use place::{Unplaced, put_inputs};
