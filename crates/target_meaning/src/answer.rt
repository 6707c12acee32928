//! How a step of the machine ends.

/// Why a leaf cannot go on.
#[derive(Clone, Copy, PartialEq, Eq, Debug)]
pub enum Reason {
    /// The block is not live.
    Block,
    /// The index is not below the block's length.
    Index,
    /// The divisor is 0.
    Zero,
    /// The shift is by 64 or more.
    Shift,
}

/// How a step went. Only `Moved` changes the state, and `Full` makes it full for ever.
#[derive(Clone, Copy, PartialEq, Eq, Debug)]
pub enum StepAnswer {
    /// The step was made.
    Moved,
    /// The root has ended.
    Ended,
    /// The leaf at the path is stuck.
    Stuck(Reason),
    /// An `alloc` did not fit, now or before.
    Full,
    /// The path names neither a leaf that has not ended nor a fork whose children have both ended.
    NoSuchLeaf,
    /// An `alloc` that fits was given a name outside 1 to the capacity, or one that was made before.
    NameUsed,
}
