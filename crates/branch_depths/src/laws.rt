//! The law. The function does nothing; its contract is the law.

ghost use Rattle.branch_depths.specs.Depths.{BranchesAreShallow};

/// The left-first run of a branch below which forks lie at most so many deep has no leaf below more than so many forks.
pub fn branches_are_shallow()
    ensures { BranchesAreShallow }
{}
