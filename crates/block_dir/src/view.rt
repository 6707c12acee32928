//! What a seat knows, as contracts see it. No value of these types is made.

/// What a seat knows of one place, a header or a word.
pub struct Cell {
    /// The seat's share, from 0 for nothing to 2^64 for the whole.
    pub share: u128,
    /// The word there: of a live block's header 2·len + 2.
    pub value: u64,
    /// The name of the block to which the place belongs: of a header the place itself.
    pub home: u64,
    /// The share that the next split hands on. It is 0 between calls.
    pub going: u64,
}

/// What a seat knows: its names and words with their shares, its position, the blocks that it drew,
/// and its weight.
pub struct View {
    /// The cells from place 0 on. A contract reads this array as a list of any length; past its end
    /// nothing is held.
    pub cells: [Cell; 0],
    /// The place that the next claim tries first, from 1 to the capacity and 1.
    pub position: u64,
    /// The blocks that the seat claimed, and those of the seats that it took in: each with its name
    /// and its length.
    pub drawn: [(u64, u64); 0],
    /// From 1 to 2^64. The weights of all seats of a directory make 2^64.
    pub weight: u128,
    /// The directory's capacity.
    pub room: u64,
}
