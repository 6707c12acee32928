//! The steps of following a derivation that need no block: calculations, operations, choices of numbers and calls.
#![tactic(auto)]

mod any;
mod applying;
mod calc;
mod calling;
mod instrs;
mod lines;
mod named;
mod register;
mod row;
mod shapes;
mod words;

pub use any::{Choice, any_step};
pub use calc::calc_step;
pub use calling::{Calling, use_step};
pub use named::is_numbered;
pub use row::apply_step;
