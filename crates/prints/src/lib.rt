//! What is printed for a flat tree, as a definition.
#![tactic(auto)]

pub mod home;
pub mod laws;

pub use home::Home;
