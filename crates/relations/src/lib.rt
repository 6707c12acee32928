//! How values lie in registers and blocks, and how results are written.
#![tactic(auto)]

pub mod laws;
