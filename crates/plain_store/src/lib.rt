//! A store on one thread, in one flat memory.
#![tactic(auto)]

pub mod begins;
pub mod cells;
pub mod ends;
pub mod forks;
pub mod lists;
pub mod memory;
pub mod store;
