//! Looking a table up.

ghost use Rattle.std.specs.Prelude.{◌≡◌, ◌≤◌, ◌^◌, ◌∷◌, [], nat_lt};
ghost use Rattle.share_table.specs.Amounts.{amount, covers, has_name, length_in};

use crate::entry::Entry;

/// Whether a place of a block is among those of an entry.
pub fn covers_place(entry: &Entry, block: u64, place: u64) -> bool
    ensures { result ≡ covers entry.now block place }
{
    entry.block == block && entry.first <= place && place - entry.first < entry.count
}

// What an entry has of a place, if it is the branch's.
fn share_of_branch(entry: &Entry, owner: u64, block: u64, place: u64) -> u128
    ensures { result ≡ amount (entry.now ∷ []) owner block place }
{
    if entry.owner == owner && covers_place(entry, block, place) {
        entry.share
    } else {
        0
    }
}

/// How much a branch has of a place.
pub fn amount_of(entries: &[Entry], owner: u64, block: u64, place: u64) -> u128
    requires { amount entries.now owner block place ≤ 2 ^ 64 }
    ensures { result ≡ amount entries.now owner block place }
{
    let mut sum = 0;
    for entry in entries {
        sum += share_of_branch(entry, owner, block, place);
    }
    sum
}

/// Whether a branch has something of a place.
pub fn is_held(entries: &[Entry], owner: u64, block: u64, place: u64) -> bool
    ensures { result ≡ nat_lt 0 (amount entries.now owner block place) }
{
    for entry in entries {
        if share_of_branch(entry, owner, block, place) > 0 {
            return true;
        }
    }
    false
}

// Whether an entry has the name of a block.
fn names(entry: &Entry, block: u64) -> bool
    ensures { result ≡ has_name entry.now block }
{
    covers_place(entry, block, 0) && entry.share > 0
}

/// The length of a block of which a branch has the name.
pub fn length_of(entries: &[Entry], owner: u64, block: u64) -> Option<u64>
    ensures { result ≡ length_in entries.now owner block }
{
    for entry in entries {
        if entry.owner == owner && names(entry, block) {
            return Some(entry.len);
        }
    }
    None
}
