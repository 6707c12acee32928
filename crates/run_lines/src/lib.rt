//! The lines that tell the end of a run.
#![tactic(auto)]

mod lines;

pub use lines::push_end;
