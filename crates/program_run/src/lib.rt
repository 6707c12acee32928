//! A program run from its beginning on values, on one thread.
#![tactic(auto)]

mod end;
mod whole;

pub use end::RunEnd;
pub use whole::run_whole;
