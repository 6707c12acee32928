//! Containers of numbers that share their parts: a change makes a new container, in a time that grows with the logarithm of how many
//! numbers there are, and leaves the old one as it was.
#![tactic(auto)]

mod num_bag;
mod num_map;
mod num_set;
mod nums;

pub use num_bag::NumBag;
pub use num_map::NumMap;
pub use num_set::NumSet;
pub use nums::Nums;
