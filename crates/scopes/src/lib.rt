//! Names in scope: what each stands for, found in the same time for any number of names.
#![tactic(auto)]

mod scope;

pub use scope::Scope;
