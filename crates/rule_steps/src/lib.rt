//! The steps of the rule check: binds without blocks, operations, and the ends of blocks.
#![tactic(auto)]

mod ends;
mod loops;
mod operation;
mod plain;
mod refusing;
mod row;
mod state;

pub use ends::finish;
pub use loops::{end_turn, start_loop};
pub use operation::{Operation, apply};
pub use plain::{assert_step, calculate, choose};
pub use refusing::{refuse, reps, why};
pub use state::State;
