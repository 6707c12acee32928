//! Safety of code on a held piece of the heap, under any frame and at any depth of forks, with its laws.
#![tactic(auto)]

pub mod laws;
pub mod text;
