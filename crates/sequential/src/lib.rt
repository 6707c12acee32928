//! Whether the flat tree of a specification has branches.
#![tactic(auto)]

mod walk;

pub use walk::is_sequential;
