//! What goes and what is bound: the context of the rule check and the state of what is followed say the same.
#![tactic(auto)]

pub mod laws;
