//! What a taking gives and leaves, from one border to the next.

ghost use Rattle.std.specs.Prelude.{◌≡◌, ◌≤◌, ◌<◌, ◌^◌, ℕ, IfOk, true};
ghost use Rattle.share_table.specs.Amounts.{Short, amount, total};
ghost use Rattle.share_table.specs.Segments.{Pushed, Segments, shared};
ghost use Rattle.share_table.specs.Takings as spec;

use crate::borders::next_border;
use crate::entry::{Entry, Taking};
use crate::look::{amount_of, length_of};
use std::alloc::AllocError;

// What a taking leaves of a share.
fn left_of(share: u128, all: bool) -> u128
    ensures left { result ≡ spec.left_of true all share }
    ensures most { result ≤ share }
{
    if all { 0 } else { share - share / 2 }
}

// Adds an entry with this share for this branch, unless it is none.
fn add_share(
    segment: Entry,
    owner: u64,
    share: u128,
    table: &mut Vec<Entry>,
) -> Result<(), AllocError>
    ensures { IfOk result (λ u. Pushed (shared segment owner share) table.old.items table.new.items) }
{
    if share > 0 {
        table.push(Entry {
            block: segment.block,
            first: segment.first,
            count: segment.count,
            len: segment.len,
            share,
            owner,
        })?;
    }
    Ok(())
}

// Adds the segment of a taking from one place up to another one, of which its branch has the same.
fn add_segment(
    entries: &[Entry],
    taking: Taking,
    place: u64,
    next: u64,
    table: &mut Vec<Entry>,
) -> Result<(), AllocError>
    requires few { (b j : ℕ) → total entries.now b j ≤ 2 ^ 64 }
    requires order { place < next }
    requires end { next ≤ 2 ^ 62 }
    requires same { (j : ℕ) → place ≤ j → j < next → amount entries.now taking.from taking.block j ≡ amount entries.now taking.from taking.block place }
    ensures { IfOk result (λ u. Segments entries.now taking place next table.old.items table.new.items) }
{
    let has = amount_of(entries, taking.from, taking.block, place);
    let left = left_of(has, taking.all);
    let len = match length_of(entries, taking.from, taking.block) {
        Some(len) => len,
        None => 0,
    };
    let segment = Entry {
        block: taking.block,
        first: place,
        count: next - place,
        len,
        share: 0,
        owner: 0,
    };
    add_share(segment, taking.from, left, table)?;
    add_share(segment, taking.to, has - left, table)
}

/// Adds what a taking gives and leaves of its places.
pub fn add_segments(
    entries: &[Entry],
    taking: Taking,
    table: &mut Vec<Entry>,
) -> Result<(), AllocError>
    requires few { (b j : ℕ) → total entries.now b j ≤ 2 ^ 64 }
    requires short { Short entries.now }
    requires order { taking.first ≤ taking.end }
    requires end { taking.end ≤ 2 ^ 62 }
    ensures { IfOk result (λ u. Segments entries.now taking taking.first taking.end table.old.items table.new.items) }
{
    let mut place = taking.first;
    'segments: while place < taking.end {
        let next = next_border(entries, taking.block, place, taking.end);
        add_segment(entries, taking, place, next, table)?;
        place = next;
    }
    Ok(())
}
