//! Sequences that share their parts: a changed one leaves the old one as it was.
#![tactic(auto)]

mod keyed;
mod sequence;

pub use keyed::Keyed;
pub use sequence::Sequence;
