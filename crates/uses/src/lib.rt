//! The variables that a block of a flat tree uses.
#![tactic(auto)]

mod used;

pub use used::{block_uses, without};
