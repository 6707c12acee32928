//! How many variables the binds of a flat tree have.
#![tactic(auto)]

mod counted;

pub use counted::behind;
