//! The line that tells why the rules refuse a specification.
#![tactic(auto)]

mod line;

pub use line::rule_line;
