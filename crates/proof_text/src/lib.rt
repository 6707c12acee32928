//! Derivations as text: how each bind of a specification is met by the code of a program, line by line.
#![tactic(auto)]

mod laws;
mod line;
mod printing;
mod reading;
mod sections;
#[cfg(test)]
mod tests;
mod words;

pub use laws::{each_text_has_one_reading, what_is_printed_is_read};
pub use line::{Proof, ProofLine};
pub use printing::{is_whole, print_proof};
pub use reading::read_proof;
pub use sections::{TextParts, parts};
