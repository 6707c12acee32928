//! What the command `verify` says of its input.
#![tactic(auto)]

mod saying;

pub use saying::{Verdict, verify_text};
