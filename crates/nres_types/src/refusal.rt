//! Why a specification has no typing.

use nres_core::{Place, Ty};
use target_code::{Name, Rep};
use thiserror::Error;

/// Why a specification has no typing: the broken rule whose place comes first in the text, the inner expression's at one place.
#[derive(Debug, Drop, Error)]
pub enum TypeRefusal {
    /// A name that nothing bound, or no procedure of that name.
    #[error("unbound name")]
    Unbound {
        /// The place of the name.
        place: Place,
        /// The name.
        name: Name,
    },
    /// A value of another type than is wanted.
    #[error("another type is wanted")]
    Mismatch {
        /// The place of the value's first token.
        place: Place,
        /// The type that is wanted.
        want: Ty,
        /// The type that the value has.
        found: Ty,
    },
    /// Another number of values than is wanted.
    #[error("another number is wanted")]
    Arity {
        /// The place of the pattern, of `return`, or of the procedure's name.
        place: Place,
        /// How many are wanted.
        want: u32,
        /// How many there are.
        found: u32,
    },
    /// A word without an operation on the type of its first argument.
    #[error("no operation on this type")]
    NoOperation {
        /// The place of the word.
        place: Place,
        /// The word.
        word: Name,
        /// The type of its first argument.
        found: Ty,
    },
    /// A name that stands a second time in one pattern, or a second procedure of one name.
    #[error("a name stands twice")]
    Duplicate {
        /// The place of the second.
        place: Place,
        /// The name.
        name: Name,
    },
    /// A representation that the type does not have.
    #[error("a representation of another type")]
    OtherRep {
        /// The place of the representation.
        place: Place,
        /// The representation.
        rep: Rep,
    },
    /// There was no memory; so end names that are longer than names may be, and numbers that no `u32` holds.
    #[error("out of memory")]
    Memory,
}
