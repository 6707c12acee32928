//! What of a context the rule check looks at: the holds of containers, and of nothing else.
#![tactic(auto)]

pub mod laws;
