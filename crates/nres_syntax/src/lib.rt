//! Specifications as text: a reader that gives exactly the tree of a text, or exactly the first place at which no
//! specification can begin so.
#![tactic(auto)]

mod block;
mod file;
mod head;
mod value;

pub use file::{read_spec, read_withs};
pub use nres_automaton::SyntaxRefusal;
