//! Laws of runs, above the safety logic: runs in which no leaf is ever stuck or unowned, pieces that are held in part, and
//! proofs that serve safety and bounds at once.
#![tactic(auto)]

pub mod laws;
