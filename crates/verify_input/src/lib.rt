//! What an input of `verify` is: a typed specification, a program and a derivation.
#![tactic(auto)]

mod reading;

pub use reading::{Unverified, Verification, read_verification};
