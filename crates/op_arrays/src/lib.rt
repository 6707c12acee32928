//! The procedures of arrays, slices and vecs, with what they do.
#![tactic(auto)]

pub mod laws;
