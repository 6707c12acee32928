//! What is asked of a program as a whole that is to fit a specification.
#![tactic(auto)]

mod called;
mod calls;
mod names;
mod parts;
mod verdict;
mod verifying;
mod whole;

pub use verdict::Followed;
pub use verifying::{Follower, verify};
pub use whole::standing;
