//! How a fork begins.

ghost use Rattle.std.specs.Prelude.{◌≡◌, ◌<◌, ℕ, IfOk, OnErr, Some, slice_get, false};
ghost use Rattle.branch_exec.specs.Stores.{Narrows};
ghost use Rattle.target_meaning.specs.declared.frame.Starting.{Starting};
ghost use Rattle.plain_store.specs.Cuts.{AllCut};
ghost use Rattle.plain_store.specs.Plain.{kept_of};
ghost use Rattle.plain_store.specs.Swaps.{AreCut, first_kept, first_other};
ghost use Rattle.plain_store.specs.declared.cells.Cell.{Cell};

use crate::cells::Cell;
use crate::forks::{Fork, Lent, cut};
use crate::lists::list_of;
use crate::memory::PlainStore;
use std::alloc::AllocError;
use target_meaning::frame::Starting;

// Cuts the cells of a list for a fork whose branch begins with this stamp.
fn cut_for(cells: &mut Vec<Cell>, lent: Vec<Lent>, low: u64, stamp: u64) -> Fork
    requires listed { (border : ℕ) × (l r : Starting) × AllCut cells.old.items border l r lent.items }
    requires fresh { (i : ℕ) (c : Cell) → slice_get cells.old.items i ≡ Some c → c.stamp < stamp }
    ensures cut { AreCut cells.old.items cells.new.items lent.items result.lent.items (first_kept lent.items) (first_other lent.items) stamp }
    ensures fork { (result.low ≡ low) × (result.high ≡ stamp) × (result.begun ≡ false) }
{
    let mut lent = lent;
    cut(cells.as_mut_slice(), lent.as_mut_slice(), stamp);
    Fork {
        low,
        high: stamp,
        begun: false,
        lent,
    }
}

/// Begins a fork: the left branch's piece comes to the top, and the right branch's waits below it with what is kept. It
/// takes its memory first.
pub fn open_fork(
    store: &mut PlainStore,
    left: &Starting,
    right: &Starting,
) -> Result<(), AllocError>
    ensures err { OnErr result (kept_of store.new ≡ kept_of store.old) }
    ensures ok { IfOk result (λ r. Narrows (kept_of store.old) (kept_of store.new) left.now right.now) }
{
    let Some(_reach) = store.last.checked_add(store.forks.len() as u64 + 2) else {
        return Err(AllocError);
    };
    let lent = list_of(store, left, right)?;
    if store.forks.reserve(1).is_err() {
        return Err(AllocError);
    }
    let stamp = store.last + 1;
    let fork = cut_for(&mut store.cells, lent, store.border, stamp);
    store.border = stamp;
    store.last = stamp;
    store.forks.push_reserved(fork);
    Ok(())
}
