//! Refusals by the rules.

use crate::place::Place;
use sqlite_items::Items;
use target_code::{Name, Rep};

/// Why a bind is refused. A name is that to which the variable was first bound, the digits of a literal, or `_` for a
/// value without a name.
#[derive(Drop)]
pub enum Why {
    /// No row fits the arguments.
    Missing,
    /// A container was used up before.
    Gone(Name),
    /// A container that must stay is used up here.
    Held(Name),
    /// A container is used up that the same bind uses once more.
    Twice(Name),
    /// A number is not known to be below the bound.
    Fact(Name, u32),
    /// A container is used up on one of two sides alone.
    Meet(Name),
    /// A slice does not come back in its place.
    Tag(Name),
    /// The result of this number, counted from 1, has another representation than is wanted.
    Result(u32),
}

/// A bind that the rules refuse.
#[derive(Drop)]
pub struct Refusal {
    /// The place of the bind.
    pub place: Place,
    /// The word of its operation.
    pub op: Name,
    /// The representations of the arguments.
    pub reps: Items<Rep>,
    /// Why it is refused.
    pub why: Why,
}
