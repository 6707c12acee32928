//! Stores in which a run can begin.
#![tactic(auto)]

mod store;

pub use store::RunStore;
