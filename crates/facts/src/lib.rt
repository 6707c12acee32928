//! What a list of binds tells of its numbers: which are known to be below a bound.
#![tactic(auto)]

mod calculations;
mod known;
mod learnt;
mod wanted;

pub use calculations::{Calculation, Calculations};
pub use known::{Fact, Facts};
