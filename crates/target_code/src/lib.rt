//! Target programs: the types that the translator fills, the text format spells and the machine runs.
#![tactic(auto)]

mod code;
mod formed;
mod name;
mod text;
mod tree;

pub use code::{all_below, branch_below, hand_below, hands_below, line_below};
pub use formed::is_formed;
pub use name::{Name, NameRefusal, RESERVED, is_reserved};
pub use text::{push_indent, push_number, push_rep};
pub use tree::{Branch, Calc, Code, Hand, Image, InParam, Instr, Proc, Program, Rep};
