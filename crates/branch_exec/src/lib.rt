//! Running a branch over a store, left first.
#![tactic(auto)]

pub mod branch;
pub mod end;
pub mod fork;
pub mod law;
pub mod leaf;
pub mod leg;
pub mod run;
pub mod store;
mod straight;
