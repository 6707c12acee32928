//! Contexts where two sides of an `if` meet, and results that are to agree.
#![tactic(auto)]

mod places;
mod shapes;
mod sides;
mod slices;

pub use shapes::{first_other, first_unlike, same_rep};
pub use sides::{Side, meet};
pub use slices::unmet;
