//! What a block that was put is in the machine's heap.

ghost use Rattle.std.specs.Prelude.{◌≡◌, ℕ, List};
ghost use Rattle.branch_exec.specs.Stores.{Kept};
ghost use Rattle.store_blocks.specs.Blocks.{IsPut};
ghost use Rattle.target_meaning.specs.Machine.{Heap, Never, with_words};
ghost use Rattle.target_meaning.specs.Piece.{Holds};

/// A heap that has what a store holds, and in which the name was never made, has what it holds after the block was put,
/// once the block was made in it with these words.
pub fn put_is_held()
    ensures { (s t : Kept) (x : ℕ) (ws : List ℕ) (h : Heap) → IsPut s t x ws → Holds s.top h → h.cap ≡ s.cap → h.cells x ≡ Never →
        Holds t.top (with_words h x ws) }
{}
