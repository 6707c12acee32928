//! The registers that have no token from before at the head of a loop.
#![tactic(auto)]

mod lines;
mod past;
mod written;

pub use lines::{note_block, note_lines};
pub use written::note_written;
