//! Laws of flattening: how large the flat tree of a tree is, that it is typed, and that it means the same.
#![tactic(auto)]

pub mod meaning;
pub mod sizes;
pub mod typing;
