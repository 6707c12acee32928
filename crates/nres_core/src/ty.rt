//! Types of values.

ghost use Rattle.std.specs.Prelude.{◌≡◌};
ghost use Rattle.nres_core.specs.Vocabulary.{word_of};

/// What a value is. Containers hold numbers.
#[derive(Clone, Copy, PartialEq, Eq, Debug)]
pub enum Ty {
    /// A number from 0 to 2^64 - 1.
    Nat,
    /// A truth value.
    Bool,
    /// A list.
    List,
    /// A finite set.
    Set,
    /// A finite map.
    Map,
    /// A multiset.
    Bag,
}

impl Ty {
    /// The word of a text for the type.
    pub fn word(self) -> &'static [u8]
        ensures { result.now ≡ word_of self }
    {
        match self {
            Ty::Nat => b"nat",
            Ty::Bool => b"bool",
            Ty::List => b"list",
            Ty::Set => b"set",
            Ty::Map => b"map",
            Ty::Bag => b"bag",
        }
    }
}
