//! Whether two procedures are the same, word for word.
#![tactic(auto)]

pub mod laws;
mod same;

pub use same::same_proc;
