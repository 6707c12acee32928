//! Laws of runs above the machine: maps of notes, which leaves make their step, lawful heaps; and the machine on small
//! programs.
#![tactic(auto)]

pub mod laws;
pub mod samples;
