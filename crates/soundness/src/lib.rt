//! What it means that a program is a sound translation of a specification: its start, its good end and its shape.
#![tactic(auto)]

pub mod laws;
