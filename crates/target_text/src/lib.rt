//! The text of target programs: one spelling for each. Its printer, and its reader.
#![tactic(auto)]

mod laws;
mod printing;
mod reader;
mod refusal;

pub use printing::print_program;
pub use reader::read_program;
pub use refusal::NotProgram;
