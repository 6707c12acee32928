//! What is held of single places.

/// What is held of a place: nothing where `amount` is 0, else its value, with so much of the whole share, which is 2^64.
#[derive(Clone, Copy)]
pub struct Held {
    /// The value; of a name the length.
    pub value: u64,
    /// The share.
    pub amount: u128,
}

/// What tells of a piece, place by place.
pub trait Holding {
    ghost use Rattle.std.specs.Prelude.{◌≡◌, ◌≤◌, ◌^◌, ℕ};
    ghost use Rattle.target_meaning.specs.Piece.{Nil, Piece, share_of};

    ghost piece: { Self → Piece };

    /// What is held of a place of a block: of its name at 0, of its word i at i + 1. Of places from 2^64 on nothing is held.
    fn held(&self, block: u64, place: u64) -> Held
        ensures held { share_of result.value result.amount ≡ piece self.now block place }
        ensures far { (b j : ℕ) → 2 ^ 64 ≤ j → piece self.now b j ≡ Nil };
}
