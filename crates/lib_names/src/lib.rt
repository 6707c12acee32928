//! The names of the library's procedures.
#![tactic(auto)]

mod names;

pub use names::lib_name;
