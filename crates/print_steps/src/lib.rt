//! What is printed so far, the binds without blocks, and the ends of blocks.
#![tactic(auto)]

mod book;
mod ends;
mod plain;
mod printing;
mod rows;
mod titles;

pub use book::Book;
pub use ends::{
    Begun, Ending, Over, OverSide, begun_at, block_words, close_block, end_code, end_side,
    left_over, open_block, proc_of,
};
pub use plain::{Calling, print_any, print_apply, print_assert, print_calc, print_use};
pub use printing::{Printing, empty_rules};
pub use titles::{Title, name_of};
