//! The entries of a table.

/// The whole of a name or word.
pub const WHOLE: u128 = 18446744073709551616;

/// What a branch holds of places of a block that follow one another: the name is the place 0, the word i the place i + 1.
#[derive(Clone, Copy)]
pub struct Entry {
    /// The block.
    pub block: u64,
    /// The first place.
    pub first: u64,
    /// The number of places.
    pub count: u64,
    /// The length of the block, where the name is among the places.
    pub len: u64,
    /// The share of each place: 2^64 is the whole.
    pub share: u128,
    /// The branch.
    pub owner: u64,
}

/// A branch takes of what another one has of places of a block that follow one another.
#[derive(Clone, Copy)]
pub struct Taking {
    /// The block.
    pub block: u64,
    /// The first place.
    pub first: u64,
    /// The place behind the last one.
    pub end: u64,
    /// Whether it takes all, and not half of each share, rounded down.
    pub all: bool,
    /// The branch that has it.
    pub from: u64,
    /// The branch that takes it.
    pub to: u64,
}
