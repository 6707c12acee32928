//! Running the branches of forks on threads.
#![tactic(auto)]

pub mod fork;
pub mod gate;
pub mod law;
pub mod task;
pub mod threads;
