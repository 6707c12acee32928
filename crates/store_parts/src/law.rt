//! What a part that cannot be given means.

ghost use Rattle.std.specs.Prelude.{◌<◌, ℕ};
ghost use Rattle.branch_exec.specs.Stores.{IsRefusedAt};
ghost use Rattle.target_meaning.specs.Held.{left_takes, right_takes};
ghost use Rattle.target_meaning.specs.Leaf.{Child, Split, Wait};
ghost use Rattle.target_meaning.specs.Piece.{Piece};
ghost use Rattle.target_meaning.specs.Unowned.{IsUnowned};

/// Where a part of a fork cannot be given, the leaf is unowned.
pub fn refused_is_unowned()
    ensures { (f : ℕ) (l r : Child) (w : Wait) (p : Piece) (b o : ℕ) → f < 64 →
        IsRefusedAt (left_takes l) (right_takes l r) p b o → IsUnowned f (Split l r w) p }
{}
