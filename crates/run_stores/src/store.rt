//! A store in which a run can begin.

use branch_exec::store::{Seen, Store};
use std::alloc::{AllocError, Global};

/// A store in which a run on one thread can begin: there is an empty one, and its blocks lie one behind the other.
pub trait RunStore: Store + Sized {
    ghost use Rattle.std.specs.Prelude.{◌≡◌, ◌≤◌, IfOk};
    ghost use Rattle.branch_exec.specs.Stores.{sees};
    ghost use Rattle.run_stores.specs.Rows.{IsEmpty, IsInRow, whole_length};

    /// A store of this capacity that holds nothing and drew nothing. Answers an error where memory runs out.
    fn empty(alloc: Global, cap: u64) -> Result<Self, AllocError>
        ensures { IfOk result (λ s. IsEmpty (Self.kept s) cap) };

    /// The length of a block that the top piece holds whole, its name and each of its words. It takes no memory.
    fn whole_block(&self, block: u64) -> Option<u64>
        ensures { result ≡ whole_length (Self.kept self.now).top block };

    /// A word of the top piece, as by `read`. It takes no memory.
    fn word(&self, block: u64, index: u64) -> Seen
        ensures { result ≡ sees (Self.kept self.now).top block index };

    /// How many words were claimed: the number walked. It takes no memory.
    fn claimed(&self) -> u64
        ensures { result ≡ (Self.kept self.now).walked };

    ghost lies_in_row: { (s : Self) → IsInRow 1 (Self.kept s).drawn (Self.kept s).walked };

    ghost lies_within: { (s : Self) → (Self.kept s).walked ≤ (Self.kept s).cap };
}
