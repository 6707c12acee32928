//! What the rule check knows as it goes over a flat tree.

use facts::{Calculations, Facts};
use ownership::Context;

/// Entries, facts, and calculations, of which those from `start` on are of the list of binds that is gone over.
#[derive(Drop)]
pub struct State {
    /// The entries.
    pub context: Context,
    /// The facts.
    pub facts: Facts,
    /// The calculations.
    pub calculations: Calculations,
    /// How many calculations there were where the list of binds began.
    pub start: usize,
}
