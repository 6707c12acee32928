//! What is printed for a flat tree: its binds, blocks and procedures, gone over in order.
#![tactic(auto)]

mod bodies;
mod walk;

pub use bodies::{Printed, print_all};
