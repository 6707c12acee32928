//! The list of the cells of a fork's parts.

ghost use Rattle.std.specs.Prelude.{◌≡◌, ◌≤◌, ◌<◌, ◌-◌, ℕ, IfOk, Some, slice_get, true};
ghost use Rattle.plain_store.specs.Cells.{IsPlaced};
ghost use Rattle.plain_store.specs.Cuts.{IsInPart, IsInStart, IsListed, Lists, is_in_some};
ghost use Rattle.plain_store.specs.declared.cells.Cell.{Cell};

use crate::cells::Cell;
use crate::forks::{Lent, cut_of};
use crate::memory::PlainStore;
use std::alloc::AllocError;
use target_meaning::frame::{Part, Starting};

// The cells of a part: from the first up to the second.
fn range_of(cells: &[Cell], part: &Part) -> (u64, u64)
    requires { IsPlaced cells.now }
    ensures low { part.now.block ≤ result.0 }
    ensures all { (i : ℕ) (c : Cell) → slice_get cells.now i ≡ Some c → c.home ≤ i → IsInPart part.now i c →
        (c.home ≡ part.now.block) × (result.0 ≤ i) × (i < result.1) }
{
    let block = part.block;
    match part.span {
        Some((offset, count)) => {
            let first = block.saturating_add(offset).saturating_add(1);
            (first, first.saturating_add(count))
        }
        None => (block, end_of(cells, block)),
    }
}

// Where the cells of a block end.
fn end_of(cells: &[Cell], block: u64) -> u64
    requires { IsPlaced cells.now }
    ensures { (i : ℕ) (c : Cell) → slice_get cells.now i ≡ Some c → c.home ≡ block → i < result }
{
    match cells.get(block as usize) {
        Some(name) if name.home == block => { block.saturating_add(name.value).saturating_add(1) }
        _ => cells.len() as u64,
    }
}

// Adds a cell to a fork's list, if it is one of this block of which the branch holds something.
fn add_cell(
    store: &PlainStore,
    block: u64,
    at: u64,
    left: &Starting,
    right: &Starting,
    lent: &mut Vec<Lent>,
) -> Result<(), AllocError>
    requires { block ≤ at }
    ensures { IfOk result (λ u. Lists store.now.cells.items store.now.border left.now right.now lent.old.items lent.new.items
        (λ i c. (i ≡ at) × (c.home ≡ block))) }
{
    let Some(cell) = store.cells.get(at as usize) else {
        return Ok(());
    };
    if cell.home != block || cell.stamp < store.border || cell.amount == 0 {
        return Ok(());
    }
    lent.push(cut_of(cell, at as usize, left, right))?;
    Ok(())
}

// Adds the cells of a block from one place up to another.
fn add_range(
    store: &PlainStore,
    block: u64,
    range: (u64, u64),
    left: &Starting,
    right: &Starting,
    lent: &mut Vec<Lent>,
) -> Result<(), AllocError>
    requires { block ≤ range.0 }
    ensures { IfOk result (λ u. Lists store.now.cells.items store.now.border left.now right.now lent.old.items lent.new.items
        (λ i c. (range.0 ≤ i) × (i < range.1) × (c.home ≡ block))) }
{
    for at in range.0..range.1 {
        add_cell(store, block, at, left, right, lent)?;
    }
    Ok(())
}

// Adds the cells of a part.
fn add_part(
    store: &PlainStore,
    part: &Part,
    left: &Starting,
    right: &Starting,
    lent: &mut Vec<Lent>,
) -> Result<(), AllocError>
    ensures { IfOk result (λ u. Lists store.now.cells.items store.now.border left.now right.now lent.old.items lent.new.items
        (IsInPart part.now)) }
{
    let range = range_of(store.cells.as_slice(), part);
    add_range(store, part.block, range, left, right, lent)
}

// Adds the cells of some parts.
fn add_parts(
    store: &PlainStore,
    parts: &[Part],
    left: &Starting,
    right: &Starting,
    lent: &mut Vec<Lent>,
) -> Result<(), AllocError>
    ensures { IfOk result (λ u. Lists store.now.cells.items store.now.border left.now right.now lent.old.items lent.new.items
        (λ i c. is_in_some parts.now c.home (i - c.home) ≡ true)) }
{
    for part in parts {
        add_part(store, part, left, right, lent)?;
    }
    Ok(())
}

// Adds the cells of the parts with which a branch starts.
fn add_start(
    store: &PlainStore,
    branch: &Starting,
    left: &Starting,
    right: &Starting,
    lent: &mut Vec<Lent>,
) -> Result<(), AllocError>
    ensures { IfOk result (λ u. Lists store.now.cells.items store.now.border left.now right.now lent.old.items lent.new.items
        (IsInStart branch.now)) }
{
    add_parts(store, branch.hands.as_slice(), left, right, lent)?;
    add_parts(store, branch.lends.as_slice(), left, right, lent)
}

/// The list of the cells of a fork's parts.
pub fn list_of(
    store: &PlainStore,
    left: &Starting,
    right: &Starting,
) -> Result<Vec<Lent>, AllocError>
    ensures { IfOk result (λ v. IsListed store.now.cells.items store.now.border left.now right.now v.items) }
{
    let mut lent = Vec::new(store.alloc);
    add_start(store, left, left, right, &mut lent)?;
    add_start(store, right, left, right, &mut lent)?;
    Ok(lent)
}
