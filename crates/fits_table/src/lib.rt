//! The table of rows: each row has the procedure of its operation.
#![tactic(auto)]

pub mod laws;
