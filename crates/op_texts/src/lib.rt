//! The texts of the library's procedures.
#![tactic(auto)]

pub mod arrays;
pub mod bits;
pub mod hash;
pub mod heap;
pub mod line;
