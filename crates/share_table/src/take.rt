//! A branch takes of what another one has.

ghost use Rattle.std.specs.Prelude.{◌≤◌, ◌≢◌, ◌^◌, ℕ, IfOk};
ghost use Rattle.share_table.specs.Amounts.{Short, total};
ghost use Rattle.share_table.specs.Takings.{Taken};

use crate::entry::{Entry, Taking};
use crate::outside::beside;
use crate::segments::add_segments;
use std::alloc::{AllocError, Global};

/// The table in which a branch took what a taking says: of each place all that the other one has, or half of it, rounded
/// down. The old table is as it was.
pub fn take(alloc: Global, entries: &[Entry], taking: Taking) -> Result<Vec<Entry>, AllocError>
    requires few { (b j : ℕ) → total entries.now b j ≤ 2 ^ 64 }
    requires short { Short entries.now }
    requires order { taking.first ≤ taking.end }
    requires end { taking.end ≤ 2 ^ 62 }
    requires two { taking.from ≢ taking.to }
    ensures { IfOk result (λ table. Taken entries.now table.items taking) }
{
    let mut table = beside(alloc, entries, taking)?;
    add_segments(entries, taking, &mut table)?;
    Ok(table)
}
