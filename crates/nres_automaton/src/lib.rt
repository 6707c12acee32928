//! Specifications a token at a time: the grammar as an automaton, a cursor over tokens, and the readers of expressions, names
//! and lists. The automaton reads exactly the texts of the grammar, and refuses exactly the first token with which none begins.
#![tactic(auto)]

mod cursor;
mod expr;
mod laws;
mod lexeme;
mod list;
mod refusal;

pub use cursor::{Cursor, Next, OPERATORS};
pub use expr::{name_of, rep, whole, whole_atom};
pub use laws::{refused_at_the_first_token, texts_alone_are_accepted, texts_are_accepted};
pub use lexeme::{
    Bounded, Construct, Fixed, Lexeme, construct_at, container_type, is_bag, is_fixed,
};
pub use list::{
    Bound, args, more, name, name_to, others, pattern_to, results, results_to, whole_to,
};
pub use refusal::SyntaxRefusal;
