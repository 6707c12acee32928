//! The forks under way of a flat memory.

ghost use Rattle.std.specs.Prelude.{◌≡◌, ◌<◌, ◌≤◌, ◌+◌, ◌^◌, ℕ, IfOk, Some, length, map, slice_get, suc, true, false};
ghost use Rattle.target_meaning.specs.Turns.{part_of};
ghost use Rattle.plain_store.specs.Cuts as spec;
ghost use Rattle.plain_store.specs.Cuts.{left_by, takes_where};
ghost use Rattle.plain_store.specs.Levels.{is_lent, kept_in, other_in};
ghost use Rattle.std.specs.Prelude.{slice_set, ◌⊎◌};
ghost use Rattle.plain_store.specs.Swaps.{AreCut, AreJoined, AreSwapped, IsSomeCell, IsWithin, AllAgree, cut_cell, first_kept, first_other, no_entry, joined_cell, swapped_cell, swapped_entry};
ghost use Rattle.plain_store.specs.declared.cells.Cell.{Cell};

use crate::cells::Cell;
use std::alloc::{AllocError, Global};
use store_parts::places::{is_in, is_one_of};
use target_meaning::frame::{Part, Starting};

/// What a fork has of a cell.
#[derive(Clone, Copy)]
pub struct Lent {
    /// The cell.
    pub at: usize,
    /// What the fork keeps of it.
    pub kept: u128,
    /// What waits for the right branch, or, once that one runs, what the left one left.
    pub other: u128,
}

/// A fork under way.
#[derive(Drop)]
pub struct Fork {
    /// The border around it.
    pub low: u64,
    /// The border of its running branch.
    pub high: u64,
    /// Whether its right branch has begun.
    pub begun: bool,
    /// What it has of the cells of its parts.
    pub lent: Vec<Lent>,
}

/// What is left of so much of a place after some parts are taken: all of each, or all of those that stand among others and
/// half of the rest.
fn left_over(parts: &[Part], all: bool, lent: &[Part], block: u64, place: u64, amount: u128) -> u128
    ensures most { result ≤ amount }
    ensures left { result ≡ left_by (takes_where all lent.now parts.now) block place amount }
{
    let mut left = amount;
    for part in parts {
        if is_in(part, block, place) {
            left = if all || is_one_of(part, lent) {
                0
            } else {
                left - left / 2
            };
        }
    }
    left
}

/// What a fork keeps of a cell, and what its right branch gets.
pub fn cut_of(cell: &Cell, at: usize, left: &Starting, right: &Starting) -> Lent
    requires { cell.now.home ≤ at }
    ensures at { result.at ≡ at }
    ensures kept { result.kept ≡ spec.after_both left.now right.now at cell.now cell.now.amount }
    ensures other { result.kept + result.other ≡ spec.after_left left.now at cell.now cell.now.amount }
{
    let block = cell.home;
    let place = at as u64 - block;
    let hands = left.hands.as_slice();
    let lends = left.lends.as_slice();
    let kept = left_over(hands, true, &[], block, place, cell.amount);
    let first = left_over(lends, false, &[], block, place, kept);
    let kept = left_over(right.hands.as_slice(), true, &[], block, place, first);
    let kept = left_over(right.lends.as_slice(), false, lends, block, place, kept);
    Lent {
        at,
        kept,
        other: first - kept,
    }
}

// Takes what a list's entry has of its cell off it, and gives it a new stamp; an entry whose cell has that stamp gets nothing.
fn cut_one(cells: &mut [Cell], part: Lent, stamp: u64) -> Lent
    requires { IsWithin cells.old part (λ c. (c.stamp ≡ stamp) ⊎ (part.kept + part.other ≤ c.amount)) }
    ensures again { (d : Cell) → slice_get cells.old part.at ≡ Some d → d.stamp ≡ stamp → (result ≡ no_entry part.at) × (cells.new ≡ cells.old) }
    ensures first { (d : Cell) → slice_get cells.old part.at ≡ Some d → d.stamp < stamp → (result ≡ part) × (cells.new ≡ slice_set cells.old part.at (cut_cell d part stamp)) }
{
    let cell = cells[part.at];
    if cell.stamp == stamp {
        return Lent {
            at: part.at,
            kept: 0,
            other: 0,
        };
    }
    cells[part.at] = Cell {
        home: cell.home,
        value: cell.value,
        amount: cell.amount - part.kept - part.other,
        stamp,
    };
    part
}

/// Takes what a list has of its cells off them, and gives them a new stamp. A cell that stands in the list again is taken
/// once.
pub fn cut(cells: &mut [Cell], lent: &mut [Lent], stamp: u64)
    requires within { (i : ℕ) → is_lent lent.old i ≡ true → IsSomeCell cells.old i (first_kept lent.old i + first_other lent.old i) }
    requires agree { AllAgree lent.old }
    requires fresh { (i : ℕ) (c : Cell) → slice_get cells.old i ≡ Some c → c.stamp < stamp }
    ensures { AreCut cells.old cells.new lent.old lent.new (first_kept lent.old) (first_other lent.old) stamp }
{
    for index in 0..lent.len() {
        lent[index] = cut_one(cells, lent[index], stamp);
    }
}

// Puts what waits for the right branch into a cell; what stood in it goes to the list.
fn swap_one(cells: &mut [Cell], part: Lent, stamp: u64) -> Lent
    requires { IsWithin cells.old part (λ c. c.amount + part.other ≤ 2 ^ 64) }
    ensures { (d : Cell) → slice_get cells.old part.at ≡ Some d → (result ≡ swapped_entry d part stamp) × (cells.new ≡ slice_set cells.old part.at (swapped_cell d part stamp)) }
{
    let cell = cells[part.at];
    let (amount, other) = if cell.stamp == stamp {
        (cell.amount + part.other, 0)
    } else {
        (part.other, cell.amount)
    };
    cells[part.at] = Cell {
        home: cell.home,
        value: cell.value,
        amount,
        stamp,
    };
    Lent {
        at: part.at,
        kept: part.kept,
        other,
    }
}

/// Puts what waits for the right branch into the cells, and what stood in them into the list.
pub fn swap(cells: &mut [Cell], lent: &mut [Lent], stamp: u64)
    requires within { (i : ℕ) → is_lent lent.old i ≡ true → i < length cells.old }
    requires most { (i : ℕ) (c : Cell) → slice_get cells.old i ≡ Some c → c.amount + other_in lent.old i ≤ 2 ^ 64 }
    requires fresh { (i : ℕ) (c : Cell) → slice_get cells.old i ≡ Some c → c.stamp < stamp }
    ensures { AreSwapped cells.old cells.new lent.old lent.new stamp }
{
    for index in 0..lent.len() {
        lent[index] = swap_one(cells, lent[index], stamp);
    }
}

// Gives a cell back what a list's entry has of it.
fn join_one(cells: &mut [Cell], part: Lent)
    requires { IsWithin cells.old part (λ c. c.amount + part.kept + part.other ≤ 2 ^ 64) }
    ensures { (d : Cell) → slice_get cells.old part.at ≡ Some d → cells.new ≡ slice_set cells.old part.at (joined_cell d part) }
{
    let cell = cells[part.at];
    cells[part.at] = Cell {
        home: cell.home,
        value: cell.value,
        amount: cell.amount + part.kept + part.other,
        stamp: cell.stamp,
    };
}

/// Gives the cells back what a list has of them.
pub fn rejoin(cells: &mut [Cell], lent: &[Lent])
    requires within { (i : ℕ) → is_lent lent.now i ≡ true → i < length cells.old }
    requires most { (i : ℕ) (c : Cell) → slice_get cells.old i ≡ Some c → c.amount + (kept_in lent.now i + other_in lent.now i) ≤ 2 ^ 64 }
    ensures { AreJoined cells.old cells.new lent.now }
{
    for part in lent {
        join_one(cells, *part);
    }
}
