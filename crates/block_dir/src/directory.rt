//! The directory.
ghost use Rattle.std.specs.Prelude.{◌≡◌, ◌+◌, ◌≤◌};

use crate::mark::Mark;
use crate::plays::Rule;
use crate::view::View;
use atomic_table::Table;
use std::alloc::Global;

/// A directory of capacity `cap`: `cap + 1` atomic words.
///
/// Word 0 serves the seats. From word 1 the blocks follow one another, each a header and its words.
/// A header is 2·len + 2 while the block is live, and 2·len + 3 once it is freed. From the first
/// header that is 0 on, all words are 0. A block's name is the place of its header, from 1 to
/// `cap`.
#[derive(Drop)]
pub struct Directory {
    pub(crate) table: Table<Mark, View, u64, Rule, Global>,
    pub(crate) cap: u64,
    ghost keyed: { table.shared.key ≡ cap },
    ghost sized: { table.shared.table_id.words ≡ cap + 1 },
    ghost small: { cap ≤ 268435456 },
}

/// The answer of a claim.
#[derive(Clone, Copy)]
pub enum Claim {
    /// The new block's name.
    Won(u64),
    /// The block does not fit behind the chain.
    Full {
        /// The number of words of the chain, headers included, as far as the seat has walked it:
        /// its position less 1.
        at: u64,
    },
}
