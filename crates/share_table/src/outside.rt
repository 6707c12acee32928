//! What is left of a table beside some places.

ghost use Rattle.std.specs.Prelude.{◌≡◌, ◌≤◌, ◌<◌, ◌+◌, ◌^◌, ◌∷◌, [], ℕ, IfOk};
ghost use Rattle.share_table.specs.Amounts.{Measures, Short, amount, total};
ghost use Rattle.share_table.specs.Outside.{Beside, ranged};
ghost use Rattle.share_table.specs.Takings.{asks};

use crate::entry::{Entry, Taking};
use std::alloc::{AllocError, Global};

// An entry with other places of its block.
fn with_places(entry: Entry, first: u64, count: u64) -> Entry
    ensures { result ≡ ranged entry first count }
{
    Entry {
        block: entry.block,
        first,
        count,
        len: entry.len,
        share: entry.share,
        owner: entry.owner,
    }
}

// Adds what an entry has beside the places of a taking.
fn keep_beside(entry: Entry, taking: Taking, table: &mut Vec<Entry>) -> Result<(), AllocError>
    requires short { Short (entry ∷ []) }
    requires order { taking.first ≤ taking.end }
    ensures { IfOk result (λ u. Beside (entry ∷ []) taking table.old.items table.new.items) }
{
    let end = entry.first + entry.count;
    if entry.block != taking.block || entry.owner != taking.from {
        table.push(entry)?;
        return Ok(());
    }
    if entry.first < taking.first {
        let count = end.min(taking.first) - entry.first;
        table.push(with_places(entry, entry.first, count))?;
    }
    if taking.end < end {
        let first = entry.first.max(taking.end);
        table.push(with_places(entry, first, end - first))?;
    }
    Ok(())
}

/// A table without what the branch of a taking has of its places.
pub fn beside(alloc: Global, entries: &[Entry], taking: Taking) -> Result<Vec<Entry>, AllocError>
    requires short { Short entries.now }
    requires order { taking.first ≤ taking.end }
    ensures { IfOk result (λ table. Beside entries.now taking [] table.items) }
{
    let mut table = Vec::new(alloc);
    for entry in entries {
        keep_beside(*entry, taking, &mut table)?;
    }
    Ok(table)
}
