//! Identification: each word of a specification is replaced by the operation that its typing gives it.
#![tactic(auto)]

mod block;
mod copy;
mod expr;
mod ops;
mod whole;

pub use whole::identify;
