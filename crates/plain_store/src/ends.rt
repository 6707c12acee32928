//! How a fork goes on and ends.

ghost use Rattle.std.specs.Prelude.{◌≡◌, ◌∷◌, ◌<◌, ◌++◌, ◌+◌, [], List, ℕ, false, true, length};
ghost use Rattle.branch_exec.specs.Stores.{Brings, HasLevel, HasRight, Level};
ghost use Rattle.target_meaning.specs.Piece.{Piece, plus};
ghost use Rattle.std.specs.Prelude.{None, Some};
ghost use Rattle.branch_exec.specs.Stores.{with_right};
ghost use Rattle.plain_store.specs.Levels.{IsSound};
ghost use Rattle.plain_store.specs.Plain.{kept_of};
ghost use Rattle.plain_store.specs.Swaps.{AreJoined, AreSwapped};
ghost use Rattle.plain_store.specs.declared.forks.Fork.{Fork};

use crate::cells::Cell;
use crate::forks::{Fork, rejoin, swap};
use crate::memory::PlainStore;

/// Begins the right branch of a fork, with this stamp.
pub fn begin_right(cells: &mut [Cell], fork: Fork, stamp: u64) -> Fork
    requires { (border : ℕ) × (last : ℕ) × (fs : List Fork) × IsSound cells.old (fs ++ fork ∷ []) border last × (last < stamp) }
    ensures swapped { AreSwapped cells.old cells.new fork.lent.items result.lent.items stamp }
    ensures fork { (result.low ≡ fork.low) × (result.high ≡ stamp) × (result.begun ≡ true) }
{
    let mut lent = fork.lent;
    swap(cells, lent.as_mut_slice(), stamp);
    Fork {
        low: fork.low,
        high: stamp,
        begun: true,
        lent,
    }
}

// Gives the cells back what a fork has of them.
fn give_back(cells: &mut Vec<Cell>, fork: &Fork)
    requires { (border : ℕ) × (last : ℕ) × (fs : List Fork) × IsSound cells.old.items (fs ++ fork.now ∷ []) border last }
    ensures { AreJoined cells.old.items cells.new.items fork.now.lent.items }
{
    rejoin(cells.as_mut_slice(), fork.lent.as_slice());
}

/// Ends the innermost fork: the top is joined with what is kept, and with the right branch's piece where it has not begun.
pub fn end_fork(store: &mut PlainStore)
    requires { HasLevel (kept_of store.old).below }
    ensures { (l : Level) (ls : List Level) → (kept_of store.old).below ≡ l ∷ ls →
        Brings (kept_of store.old) (kept_of store.new) (plus l.kept (with_right l.right (kept_of store.old).top)) ls }
{
    if let Some(fork) = store.forks.pop() {
        give_back(&mut store.cells, &fork);
        store.border = fork.low;
    }
}

// Begins the right branch of a fork in a list of cells.
fn begin_in(cells: &mut Vec<Cell>, fork: Fork, stamp: u64) -> Fork
    requires { (border : ℕ) × (last : ℕ) × (fs : List Fork) × IsSound cells.old.items (fs ++ fork ∷ []) border last × (last < stamp) }
    ensures swapped { AreSwapped cells.old.items cells.new.items fork.lent.items result.lent.items stamp }
    ensures fork { (result.low ≡ fork.low) × (result.high ≡ stamp) × (result.begun ≡ true) }
{
    begin_right(cells.as_mut_slice(), fork, stamp)
}

/// Turns to the right branch of the innermost fork: the top goes to what is kept, and the right branch's piece comes to the
/// top.
pub fn begin_fork(store: &mut PlainStore)
    requires { HasRight (kept_of store.old).below }
    ensures { (k p : Piece) (ls : List Level) → (kept_of store.old).below ≡ record { kept = k; right = Some p } ∷ ls →
        Brings (kept_of store.old) (kept_of store.new) p (record { kept = plus k (kept_of store.old).top; right = None } ∷ ls) }
{
    if let Some(fork) = store.forks.pop() {
        let stamp = store.last + 1;
        let fork = begin_in(&mut store.cells, fork, stamp);
        store.border = stamp;
        store.last = stamp;
        match store.forks.push(fork) {
            Ok(()) => {}
            Err(_) => {}
        }
    }
}
