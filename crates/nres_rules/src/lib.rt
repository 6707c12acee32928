//! The rules of specifications: their typing, the tree whose words stand for operations, and the flat tree with one
//! operation in each bind. Definitions and laws alone; what computes them stands in the crates above.
#![tactic(auto)]

pub mod laws;
