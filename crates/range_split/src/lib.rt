//! What the two branches of `par` and of `split` may use.
#![tactic(auto)]

mod branch;
pub mod laws;
mod located;
mod tested;

pub use branch::{close_branch, open_branch, open_part};
pub use located::{first_missed, places};
pub use tested::{par_fault, split_fault};
