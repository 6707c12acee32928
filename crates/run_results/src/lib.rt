//! What the results of an ended run represent.
#![tactic(auto)]

mod block;
mod showing;

pub use showing::{Shown, results};
