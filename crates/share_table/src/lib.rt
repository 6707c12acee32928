//! A table of shares: what the branches of one thread hold, as ranges of places.
#![tactic(auto)]

pub mod borders;
pub mod entry;
pub mod look;
pub mod outside;
pub mod owners;
pub mod segments;
pub mod take;
