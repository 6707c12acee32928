//! From the form in which a proof about code speaks of values to starts and good ends.
#![tactic(auto)]

pub mod laws;
