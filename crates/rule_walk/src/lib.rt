//! The rule check of a flat specification.
#![tactic(auto)]

mod book;
mod calling;
mod choice;
mod loops;
mod plain;
mod sides;
mod walk;
mod whole;

pub use whole::check_rules;
