//! A branch with its store.

use branch_exec::end::BranchEnd;
use branch_exec::leaf::Leaf;

/// A branch that is to run over a store.
#[derive(Drop)]
pub struct Task<S> {
    /// Its leaf.
    pub leaf: Leaf,
    /// Its store.
    pub store: S,
}

/// How a branch ended, and its store after it.
#[derive(Drop)]
pub struct Ended<S> {
    /// The end.
    pub end: BranchEnd,
    /// The store.
    pub store: S,
}
