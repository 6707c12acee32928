//! Whether the parts of a fork can be given, by what is held of single places.
#![tactic(auto)]

pub mod first;
pub mod held;
pub mod law;
pub mod places;
