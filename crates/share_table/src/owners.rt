//! Entries that change the branch, and entries that go.

ghost use Rattle.std.specs.Prelude.{◌≡◌, map};
ghost use Rattle.share_table.specs.Owners as spec;
ghost use Rattle.share_table.specs.Owners.{without_block};

use crate::entry::Entry;

// An entry, as the second branch's where it is the first one's.
fn moved(entry: Entry, from: u64, to: u64) -> Entry
    ensures { result ≡ spec.moved from to entry }
{
    let mut entry = entry;
    if entry.owner == from {
        entry.owner = to;
    }
    entry
}

/// All that one branch has goes to another one. It takes no memory.
pub fn give_over(entries: &mut [Entry], from: u64, to: u64)
    ensures { entries.new ≡ map (spec.moved from to) entries.old }
{
    for index in 0..entries.len() {
        entries[index] = moved(entries[index], from, to);
    }
}

/// A branch has nothing of a block any more. It takes no memory.
pub fn clear_block(entries: &mut Vec<Entry>, owner: u64, block: u64)
    ensures { entries.new.items ≡ without_block owner block entries.old.items }
{
    entries.retain(|entry| entry.owner != owner || entry.block != block);
}
