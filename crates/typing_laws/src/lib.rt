//! What typing finds of a tree, what a typed tree has, and what the tree of a text is.
#![tactic(auto)]

pub mod laws;
