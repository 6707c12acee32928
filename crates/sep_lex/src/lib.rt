//! The tokens of a text, with their spans and places.
#![tactic(auto)]

mod piece;
mod refusal;
mod walk;

pub use nres_core::{Token, TokenKind};
pub use refusal::LexRefusal;
pub use walk::{after, one_reading, tokens, tokens_from};
