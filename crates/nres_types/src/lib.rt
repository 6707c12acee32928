//! The typing of specifications: the type of each name that is bound and the operation of each word, or the rule that is
//! broken first in the text.
#![tactic(auto)]

mod blocks;
mod bodies;
mod exprs;
mod fault;
mod findings;
mod gives;
mod patterns;
mod profiles;
mod refusal;
mod scope;
mod specs;
mod words;

pub use refusal::TypeRefusal;
pub use specs::type_of;
