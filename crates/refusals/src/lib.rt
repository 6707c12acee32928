//! Refusals by the rules: their words, names and parts.
#![tactic(auto)]

mod named;
mod words;

pub use named::{arg_name, name_of, refusal, why_of};
pub use words::word_of;
