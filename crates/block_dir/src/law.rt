//! Laws: what the rule of the directory means, what is so of each seat, and what the words of the
//! contracts mean for one place of a view. These functions do nothing; their contracts are the
//! laws.
ghost use Rattle.std.specs.Prelude.{◌≡◌, ◌≢◌, ℕ, ◌+◌, ◌<◌, ◌≤◌, ◌⊎◌, List, [], ◌∷◌, ◌++◌};
ghost use Rattle.atomic_table.specs.Table.{State};
ghost use Rattle.block_dir.specs.declared.mark.Mark.{Mark};
ghost use Rattle.block_dir.specs.declared.view.View.{View};
ghost use Rattle.block_dir.specs.declared.Part.{Part};
ghost use Rattle.block_dir.specs.Calls.{view, seat_of, id_of, capacity, HasWord, OwnsWord, SameWord, SameRest, KnowsLength, rejoined};
ghost use Rattle.block_dir.specs.Meaning.{Meant};
ghost use Rattle.block_dir.specs.Rule.{Ruled};
ghost use Rattle.block_dir.specs.Steps.{IsWhole};
ghost use Rattle.block_dir.specs.Views.{whole, cell_of, share_of, sum_of, is_named, words_of, opening_view, won, released, written, revalued, kept, handed, joined, Unmarked};

use crate::directory::Directory;
use crate::seat::DirSeat;

/// The rule of the directory, which holds between any two steps, says of the words and of all views
/// what `Meant` says.
pub fn rule_means()
    ensures { (cap : ℕ) (s : State Mark View) → Ruled cap s → Meant cap s }
{}

/// What is so of each seat of a directory. Its weight is from 1 to 2^64. Each place that it holds,
/// and the name of the block to which it belongs, lies below its position. It knows the length of
/// each block whose name it holds, and owns each word of a block that it has whole. No name stands
/// twice among the blocks that it drew, and their words with their headers are at most the
/// capacity. No split of it is under way. A seat of the weight 2^64 drew all that lies below its
/// position.
pub fn seat_is_sound(directory: &Directory, seat: &DirSeat)
    requires { seat_of seat.now ≡ id_of directory.now }
    ensures weight { (0 < (view seat.now).weight) × ((view seat.now).weight ≤ whole) }
    ensures position { 1 ≤ (view seat.now).position }
    ensures within { (view seat.now).position ≤ capacity directory.now + 1 }
    ensures room { (view seat.now).room ≡ capacity directory.now }

    // What it holds.
    ensures below { (p : ℕ) → 0 < share_of p (view seat.now)
        → ((cell_of p (view seat.now)).home ≤ p) × (p < (view seat.now).position) }
    ensures length { (b : ℕ) → 0 < share_of b (view seat.now) → (cell_of b (view seat.now)).home ≡ b
        → KnowsLength (capacity directory.now) (view seat.now) b }
    ensures whole { (b n i : ℕ) → IsWhole (view seat.now) b n → i < n → OwnsWord (view seat.now) b i }
    ensures unmarked { Unmarked (view seat.now) }

    // What it drew.
    ensures once { (b : ℕ) → sum_of (is_named b) (view seat.now).drawn ≤ 1 }
    ensures fits { sum_of words_of (view seat.now).drawn ≤ capacity directory.now }
    ensures all { (view seat.now).weight ≡ whole
        → (view seat.now).position ≤ sum_of words_of (view seat.now).drawn + 1 }
{}

/// The first seat holds nothing, drew nothing, stands at the place 1 and has the whole weight.
#[tactic(auto, using(crate::proofs::Fields::view_fields))]
pub fn opened_seat_holds_nothing()
    ensures shares { (cap p : ℕ) → share_of p (opening_view cap) ≡ 0 }
    ensures drawn { (cap : ℕ) → (opening_view cap).drawn ≡ [] }
    ensures position { (cap : ℕ) → (opening_view cap).position ≡ 1 }
    ensures weight { (cap : ℕ) → (opening_view cap).weight ≡ whole }
{}

/// After a won claim the seat has the block whole and each of its words whole and 0. All other
/// places are as they were. The block is the last of those that the seat drew.
#[tactic(auto, using(crate::proofs::Fields::view_fields))]
pub fn won_block_is_whole()
    ensures block { (q n : ℕ) (v : View) → IsWhole (won q n v) q n }
    ensures words { (q n i : ℕ) (v : View) → i < n
        → OwnsWord (won q n v) q i × ((cell_of (q + 1 + i) (won q n v)).value ≡ 0) }
    ensures others { (q n p : ℕ) (v : View) → (p < q) ⊎ (q + n < p) → cell_of p (won q n v) ≡ cell_of p v }
    ensures drawn { (q n : ℕ) (v : View) → (won q n v).drawn ≡ v.drawn ++ (q, n) ∷ [] }
    ensures position { (q n : ℕ) (v : View) → (won q n v).position ≡ q + n + 1 }
    ensures weight { (q n : ℕ) (v : View) → (won q n v).weight ≡ v.weight }
{}

/// After a release the seat holds nothing of the block. All else is as it was.
#[tactic(auto, using(crate::proofs::Fields::view_fields))]
pub fn released_block_is_gone()
    ensures block { (b n p : ℕ) (v : View) → b ≤ p → p ≤ b + n → share_of p (released b n v) ≡ 0 }
    ensures others { (b n p : ℕ) (v : View) → (p < b) ⊎ (b + n < p) → cell_of p (released b n v) ≡ cell_of p v }
    ensures rest { (b n : ℕ) (v : View) → SameRest (released b n v) v }
{}

/// After a write the word has the new value, with the same share and of the same block. All else is
/// as it was.
#[tactic(auto, using(crate::proofs::Fields::view_fields))]
pub fn written_word_has_the_value()
    ensures word { (p x : ℕ) (v : View) → cell_of p (written p x v) ≡ revalued x (cell_of p v) }
    ensures others { (p x k : ℕ) (v : View) → k ≢ p → cell_of k (written p x v) ≡ cell_of k v }
    ensures rest { (p x : ℕ) (v : View) → SameRest (written p x v) v }
{}

/// A split moves shares alone: on both sides each place has the value and the block that it had.
pub fn split_keeps_values()
    ensures left { (hands lends : List Part) (v : View) (p : ℕ)
        → SameWord (cell_of p (kept hands lends v)) (cell_of p v) }
    ensures right { (hands lends : List Part) (v : View) (p : ℕ)
        → SameWord (cell_of p (handed hands lends v)) (cell_of p v) }
{}

/// A join adds the shares of each place. Its value and its block are those that the seat knew, or
/// those of the other where only the other has a share. A word whose shares make the whole is owned
/// again.
pub fn joined_shares_add_up()
    ensures shares { (v u : View) (p : ℕ) → share_of p (joined v u) ≡ share_of p v + share_of p u }
    ensures own { (v u : View) (p : ℕ) → 0 < share_of p v → SameWord (cell_of p (joined v u)) (cell_of p v) }
    ensures other { (v u : View) (p : ℕ) → share_of p v ≡ 0 → SameWord (cell_of p (joined v u)) (cell_of p u) }
    ensures whole { (v u : View) (b i : ℕ) → HasWord v b i
        → share_of (b + 1 + i) v + share_of (b + 1 + i) u ≡ whole → OwnsWord (joined v u) b i }
{}

/// Where a seat is split and both sides are joined again, it has all that it had: each share, with
/// its value and its block, its position, its weight and the blocks that it drew. So a block that
/// was handed on or lent is whole again.
#[tactic(auto, using(crate::proofs::Fields::view_fields, crate::proofs::Fields::drawn_rejoined))]
pub fn split_and_join_give_all_back()
    ensures shares { (hands lends : List Part) (v : View) (p : ℕ) → Unmarked v
        → share_of p (rejoined hands lends v) ≡ share_of p v }
    ensures words { (hands lends : List Part) (v : View) (p : ℕ)
        → SameWord (cell_of p (rejoined hands lends v)) (cell_of p v) }
    ensures whole { (hands lends : List Part) (v : View) (b n : ℕ) → Unmarked v
        → IsWhole v b n → IsWhole (rejoined hands lends v) b n }
    ensures rest { (hands lends : List Part) (v : View) → SameRest (rejoined hands lends v) v }
{}
