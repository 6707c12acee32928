//! What an input of `replay` is: a program, values for its inputs, and a schedule.
#![tactic(auto)]

mod reading;

pub use reading::{ReplayInput, Unread, read_replay};
