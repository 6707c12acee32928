//! `par` and `split` outside their blocks: what each branch begins with, and what both leave.
#![tactic(auto)]

mod closing;
mod entering;
mod fork;
pub mod laws;
mod opening;
mod parts;
mod results;

pub use closing::{close_fork, forked};
pub use entering::{Entered, end_branch, enter_branch, leave_branch};
pub use fork::{Branch, BranchPlaces, Fork};
pub use opening::{Splitting, open_par, open_split};
