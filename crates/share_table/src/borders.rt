//! Where the amounts of a block change.

ghost use Rattle.std.specs.Prelude.{◌≡◌, ◌≤◌, ◌<◌, ◌+◌, ◌^◌, ℕ};
ghost use Rattle.share_table.specs.Amounts.{Short, amount};

use crate::entry::Entry;

// The less of two places, where the second one lies behind a third.
fn nearer(next: u64, border: u64, place: u64) -> u64
    requires { place < next }
    ensures behind { place < result }
    ensures most { result ≤ next }
    ensures near { (place < border) → result ≤ border }
{
    if border > place && border < next {
        border
    } else {
        next
    }
}

/// The next place behind one, up to the last, at which an entry of the block begins or ends, or the last. Up to there each
/// branch has the same of all places.
pub fn next_border(entries: &[Entry], block: u64, place: u64, last: u64) -> u64
    requires short { Short entries.now }
    requires order { place < last }
    ensures behind { place < result }
    ensures most { result ≤ last }
    ensures same { (o j : ℕ) → place ≤ j → j < result → amount entries.now o block j ≡ amount entries.now o block place }
{
    let mut next = last;
    for entry in entries {
        if entry.block == block {
            next = nearer(next, entry.first, place);
            next = nearer(next, entry.first + entry.count, place);
        }
    }
    next
}
