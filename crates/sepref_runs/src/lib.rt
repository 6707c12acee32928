//! The commands that run programs, or follow a schedule of one: all that the program does.
#![tactic(auto)]

mod execution;
mod replaying;
mod status;
mod telling;
mod top;

pub use execution::{spec_told, text_told};
pub use replaying::schedule_told;
pub use status::RunStatus;
pub use telling::{Telling, Text};
pub use top::sepref_main;
