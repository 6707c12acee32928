//! The edge of a replay: the parts of its input, and the lines that tell its answer.
#![tactic(auto)]

pub mod cutting;
pub mod laws;
pub mod lines;

pub use cutting::{Parts, cut};
pub use lines::{code, push_end, push_no_schedule};
