//! A flat memory.

ghost use Rattle.std.specs.Prelude.{◌<◌, ◌≤◌, ◌-◌, length};
ghost use Rattle.run_stores.specs.Rows.{IsInRow};
ghost use Rattle.plain_store.specs.Cells.{blocks_of};
ghost use Rattle.plain_store.specs.Laid.{row_prop};
ghost use Rattle.std.specs.Coded.{le_prop};
ghost use Rattle.plain_store.specs.Levels.{IsSound, lent_prop, nested_prop};

use crate::cells::{Cell, Drawn};
use crate::forks::Fork;
use std::alloc::Global;

/// Words in one flat memory, with what is held of each. The top piece is what stands in the cells from a stamp on, the
/// border; a fork keeps what stands in those below it, and lists what it has of the cells that its branches share.
#[derive(Drop)]
pub struct PlainStore {
    /// The cells: block after block, the name's cell first; the cell 0 is of no block.
    pub cells: Vec<Cell>,
    /// The blocks drawn.
    pub drawn: Vec<Drawn>,
    /// The forks under way, the innermost last.
    pub forks: Vec<Fork>,
    /// The least stamp of the running branch.
    pub border: u64,
    /// The greatest stamp.
    pub last: u64,
    /// The capacity.
    pub cap: u64,
    /// Where lists of forks are made.
    pub alloc: Global,
    ghost some: { 0 < length cells.items },
    ghost laid: { IsInRow 1 (blocks_of drawn.items) (length cells.items - 1) } by { Prim.hlevel (row_prop) },
    ghost fits: { length cells.items - 1 ≤ cap },
    ghost sound: { IsSound cells.items forks.items border last } by { Prim.hlevel (nested_prop, lent_prop, le_prop) },
}
