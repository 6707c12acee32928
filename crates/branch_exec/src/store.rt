//! Where a running leaf keeps its words.

use std::alloc::AllocError;
use target_meaning::frame::Starting;

/// The answer to a claim.
#[derive(Clone, Copy, PartialEq, Eq, Debug)]
pub enum Got {
    /// The block was made, with this name.
    Won(u64),
    /// The number walked is `at`, and `at` + 1 + the length passes the capacity.
    Full {
        /// The number walked.
        at: u64,
    },
    /// Want of memory.
    Memory,
}

/// The answer to a release.
#[derive(Clone, Copy, PartialEq, Eq, Debug)]
pub enum Freed {
    /// The block was given up.
    Done,
    /// The name or one of its words is not held whole.
    Unowned,
}

/// The answer to a read.
#[derive(Clone, Copy, PartialEq, Eq, Debug)]
pub enum Seen {
    /// The word.
    Word(u64),
    /// The name is held, and the index is at least its length.
    Outside,
    /// No share of the word is held.
    Unowned,
}

/// The answer to a write.
#[derive(Clone, Copy, PartialEq, Eq, Debug)]
pub enum Written {
    /// The word was changed.
    Done,
    /// The name is held, and the index is at least its length.
    Outside,
    /// The word is not held whole.
    Unowned,
}

/// Where a running leaf keeps its words. A store is seen as `kept`: the piece that the running leaf holds is on top, and
/// the forks under way wait below it.
pub trait Store {
    ghost use Rattle.std.specs.Prelude.{◌≡◌, ◌∷◌, List, None, Some, IfOk, OnErr, MatchOption};
    ghost use Rattle.target_meaning.specs.Piece.{Piece, plus};
    ghost use Rattle.branch_exec.specs.Stores.{Brings, CanGive, CannotGive, Claims, HasLevel, HasRight, Kept, Level, Narrows, after_free, after_write, frees, sees, with_right, with_top, writes};

    ghost kept: { Self → Kept };

    /// Makes a block of zeros, whole in the top piece. `Full` comes only where the number walked, which is then `at`, plus
    /// 1 plus the length passes the capacity. Of a store's calls only this one moves the number walked.
    fn claim(&mut self, len: u64) -> Got
        ensures { Claims result (kept self.old) (kept self.new) len };

    /// Gives a block up that the top piece holds whole, its name and each of its words. It takes no memory.
    fn release(&mut self, block: u64) -> Freed
        ensures answer { result ≡ frees (kept self.old).top block }
        ensures after { kept self.new ≡ with_top (kept self.old) (after_free result (kept self.old).top block) };

    /// A word of the top piece, which nothing changes. It takes no memory.
    fn read(&mut self, block: u64, index: u64) -> Seen
        ensures answer { result ≡ sees (kept self.old).top block index }
        ensures after { kept self.new ≡ kept self.old };

    /// Changes a word of which the top piece has the whole. It takes no memory.
    fn write(&mut self, block: u64, index: u64, value: u64) -> Written
        ensures answer { result ≡ writes (kept self.old).top block index }
        ensures after { kept self.new ≡ with_top (kept self.old) (after_write result (kept self.old).top block index value) };

    /// The block and the offset of the first part of a fork that cannot be given, over left hands, left lends, right hands
    /// and right lends: it has a name or word of which no share is then held, meets an earlier part of its own branch, or
    /// lends by half a share of 1. None: all can be given. A span of count 0 needs nothing; the offset is the span's, or 0.
    /// It takes no memory.
    fn test_parts(&self, left: &Starting, right: &Starting) -> Option<(u64, u64)>
        ensures { MatchOption result (CanGive (kept self.now).top left.now right.now)
            (λ found. CannotGive (kept self.now).top left.now right.now found.0 found.1) };

    /// Begins a fork: the left branch's piece comes to the top, and the right branch's waits below it with what is kept.
    fn narrow(&mut self, left: &Starting, right: &Starting) -> Result<(), AllocError>
        requires parts { CanGive (kept self.old).top left.now right.now }
        ensures err { OnErr result (kept self.new ≡ kept self.old) }
        ensures ok { IfOk result (λ r. Narrows (kept self.old) (kept self.new) left.now right.now) };

    /// Turns to the right branch of the innermost fork: the top goes to what is kept, and the right branch's piece comes
    /// to the top. It takes no memory.
    fn turn(&mut self)
        requires { HasRight (kept self.old).below }
        ensures { (k p : Piece) (ls : List Level) →
            (kept self.old).below ≡ record { kept = k; right = Some p } ∷ ls →
            Brings (kept self.old) (kept self.new) p (record { kept = plus k (kept self.old).top; right = None } ∷ ls) };

    /// Ends the innermost fork: the top is joined with what is kept, and with the right branch's piece where it has not
    /// begun. It takes no memory.
    fn widen(&mut self)
        requires { HasLevel (kept self.old).below }
        ensures { (l : Level) (ls : List Level) → (kept self.old).below ≡ l ∷ ls →
            Brings (kept self.old) (kept self.new) (plus l.kept (with_right l.right (kept self.old).top)) ls };
}

/// A store from which others can be handed out to threads, and taken back.
pub trait Shared: Store + Sized {
    ghost use Rattle.std.specs.Prelude.{◌≡◌, ◌≤◌, IfOk, OnErr, OnOk};
    ghost use Rattle.target_meaning.specs.Piece.{plus};
    ghost use Rattle.branch_exec.specs.Stores.{CanGive, HandsOut, TakesBack};

    /// Stores for both branches of a fork, each with what that branch gets. It takes its memory first.
    fn hand_out(&mut self, left: &Starting, right: &Starting) -> Result<(Self, Self), AllocError>
        requires weight { 4 ≤ (Self.kept self.old).weight }
        requires parts { CanGive (Self.kept self.old).top left.now right.now }
        ensures err { OnErr result (Self.kept self.new ≡ Self.kept self.old) }
        ensures ok { IfOk result (λ r. HandsOut (Self.kept self.old) (Self.kept self.new) (Self.kept r.0)
            (Self.kept r.1) left.now right.now) };

    /// A store comes back, whatever the memory: the other's list of blocks follows the own one, and the number walked is as
    /// great as both. The top then holds what both held; after an error it is not said what it holds.
    fn take_back(&mut self, other: Self) -> Result<(), AllocError>
        requires { (Self.kept other).place ≡ (Self.kept self.old).place }
        ensures back { TakesBack (Self.kept self.old) (Self.kept self.new) (Self.kept other) }
        ensures top { OnOk result ((Self.kept self.new).top ≡ plus (Self.kept self.old).top (Self.kept other).top) };
}
