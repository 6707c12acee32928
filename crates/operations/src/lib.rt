//! The operations and calculations of specifications on values, each on its first choice.
#![tactic(auto)]

mod calc;
mod ops;
mod words;

pub use calc::calculate;
pub use ops::operate;
pub use words::op_of;
