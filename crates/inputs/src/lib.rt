//! The values that a text gives to the parameters of a specification or to the inputs of a program.
#![tactic(auto)]

mod fault;
pub mod laws;
mod lines;
mod refusal;
mod wanted;

pub use lines::{fitting_inputs, inputs, program_inputs};
pub use refusal::{InputFault, InputRefusal};
