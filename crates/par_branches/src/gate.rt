//! What the branches of a fork pass before they run.

use target_meaning::path::Side;

/// Is told of each branch that begins on threads.
pub trait Gate {
    /// A branch of this side begins.
    fn enter(&self, side: Side);
}

/// Lets each branch through at once.
#[derive(Drop)]
pub struct OpenGate;

impl Gate for OpenGate {
    fn enter(&self, _side: Side) {}
}
