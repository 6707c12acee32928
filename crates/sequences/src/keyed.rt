//! Items that are kept in the order of a number.

ghost use Rattle.std.specs.Prelude.{◌≡◌, ℕ};

/// An item with a key, by which it has a place among others.
pub trait Keyed {
    ghost key_of: { Self → ℕ };

    /// The key.
    fn key(&self) -> u64
        ensures { result ≡ key_of self.now };
}

impl Keyed for u64 {
    ghost key_of = { λ number. number };

    fn key(&self) -> u64 {
        *self
    }
}

/// A pair has its first number as its key.
impl Keyed for (u64, u64) {
    ghost key_of = { λ pair. pair.0 };

    fn key(&self) -> u64 {
        self.0
    }
}
