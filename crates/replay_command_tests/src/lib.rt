//! Tests of `replay`, on texts.
#![tactic(auto)]

mod answers;
mod faults;
mod heaps;
mod outcome;
mod refused;
