//! Which container is owned, kept or gone at a point of a flat tree.
#![tactic(auto)]

mod args;
mod context;
mod entry;
mod results;
mod stack;
mod tests;

pub use args::{bind, go_all, looked_up, shapes, take_args, var_entry};
pub use context::Context;
pub use entry::{Entry, Fault, Hold, Shape};
pub use results::{end_block, take_results};
pub use tests::{first_clash, first_gone, first_kept, first_twice};
