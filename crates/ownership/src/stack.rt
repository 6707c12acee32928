//! The stack of entries with the table of their places.

ghost use Rattle.std.specs.Prelude.{◌≡◌, ◌≤◌, [], length, drop, take};
ghost use Rattle.context_laws.specs.Stacks.{AllDiffer, undone, holding};
ghost use Rattle.ownership.specs.Entries.{onto};
ghost use Rattle.ownership.specs.Tables.{Agrees};
ghost use Rattle.rule_check.specs.Context.{Owned, outer};

use crate::entry::{Entry, Hold};
use indexmap::IndexMap;
use sqlite_items::Items;

/// Takes the newest entries away until so many are left.
pub fn shorten(stack: &mut Items<Entry>, table: &mut IndexMap<u32, usize>, count: usize)
    requires agrees { Agrees (onto stack.old []) table.old }
    requires differ { AllDiffer (onto stack.old []) }
    ensures entries { onto stack.new [] ≡ outer count (onto stack.old []) }
    ensures agrees { Agrees (onto stack.new []) table.new }
{
    while stack.len() > count {
        if let Some(entry) = stack.pop() {
            table.swap_remove(&entry.var);
        }
    }
}

/// Owns again what went, the last first, until so many have gone.
pub fn restore(stack: &mut Items<Entry>, trail: &mut Items<usize>, count: usize)
    ensures entries { onto stack.new [] ≡ undone (drop count trail.old) (onto stack.old []) }
    ensures trail { trail.new ≡ take count trail.old }
{
    while trail.len() > count {
        if let Some(index) = trail.pop() {
            own(stack, index);
        }
    }
}

/// Owns the entry at a place, where there is one.
fn own(stack: &mut Items<Entry>, index: usize)
    ensures { onto stack.new [] ≡ holding index Owned (onto stack.old []) }
{
    if let Some(entry) = stack.get(index).copied() {
        stack.set(index, entry.held_as(Hold::Owned));
    }
}
