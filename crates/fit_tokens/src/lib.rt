//! The tokens of registers, and the words of entries.
#![tactic(auto)]

mod changing;
mod meeting;
mod table;
mod token;
mod words;

pub use table::{Change, Tokens};
pub use token::{Token, first_is, same_token};
pub use words::{WordStack, Words};
