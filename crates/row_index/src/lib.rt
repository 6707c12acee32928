//! The first row of the table that fits an operation on arguments in given representations.
#![tactic(auto)]

pub mod fitting;
pub mod index;

pub use index::row_of;
