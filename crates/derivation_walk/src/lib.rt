//! Derivations are followed by the walk over the flat tree of a specification and the code of a program.
#![tactic(auto)]

mod walk;

pub use walk::DerivationWalk;
