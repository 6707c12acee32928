//! Where the words of variables stand while code is printed, and the code that brings words to registers.
#![tactic(auto)]

mod freeing;
mod loading;
mod moving;
mod registers;
mod table;
mod words;

pub use freeing::frees;
pub use loading::{Loaded, LoadedAll, load, loads};
pub use moving::{moves, reg_of, turns};
pub use registers::{behind, free_after, regs_all, span};
pub use table::Homes;
pub use words::{args_words, first_word_at, literals, words_at};
