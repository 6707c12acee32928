//! Laws of identification: the tree with operations for its words is typed, as large, as deep, and means the same.
#![tactic(auto)]

pub mod meaning;
pub mod sizes;
pub mod typing;
