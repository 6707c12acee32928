//! Replay: one schedule, followed step by step on the machine of target programs.
#![tactic(auto)]

pub mod answer;
pub mod follow;
pub mod laws;
pub mod reading;
pub mod schedule;
mod sight;

pub use answer::ReplayEnd;
pub use follow::replay;
pub use reading::read_schedule;
pub use schedule::{Move, NoSchedule};
