//! When a derivation, a flat tree and a program fit together, bind by bind.
#![tactic(auto)]

pub mod laws;
