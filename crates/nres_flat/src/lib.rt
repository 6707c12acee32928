//! Flattening: a specification whose words stand for operations becomes one with a single operation in each bind.
#![tactic(auto)]

mod block;
mod body;
mod divided;
mod each;
mod ends;
mod expr;
mod known;
mod looped;
mod names;
mod plain;
mod whole;

pub use whole::flatten;
