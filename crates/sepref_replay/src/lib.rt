//! The command `replay`: one schedule of a program, followed exactly.
#![tactic(auto)]

mod command;
mod following;
mod lines;

pub use command::{replay_text, replay_told};
pub use following::replay_values;
pub use lines::push_cause;
