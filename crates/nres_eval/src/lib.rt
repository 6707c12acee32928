//! The path of the first choices: what a specification computes where each choice is the first.
#![tactic(auto)]

mod block;
mod end;
mod env;
mod expr;
mod funs;
mod parts;
mod whole;

pub use end::EvalEnd;
pub use whole::eval;
