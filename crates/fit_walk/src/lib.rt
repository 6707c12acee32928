//! A derivation is followed with a flat specification and a program, bind by bind.
#![tactic(auto)]

mod beginning;
mod body;
mod plain;
mod walk;
mod whole;

pub use whole::follow_whole;
