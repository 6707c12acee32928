//! The meaning of target programs: the machine that runs them with all interleavings of their branches, what their branches hold, and races.
#![tactic(auto)]

pub mod advance;
pub mod answer;
pub mod calc;
pub mod frame;
pub mod laws;
pub mod lines;
pub mod memory;
pub mod path;
pub mod place;
pub mod registers;
pub mod settle;
pub mod stack;
pub mod state;
pub mod tree;
pub mod view;

pub use answer::{Reason, StepAnswer};
pub use path::{Path, Side};
pub use state::{State, step};
pub use view::{LeafView, Next};
