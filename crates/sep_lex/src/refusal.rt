//! Why a text has no tokens.

ghost use Rattle.std.specs.Prelude.{◌≡◌};

use nres_core::Place;
use std::alloc::{AllocError, AllocFailed};
use thiserror::Error;

/// Why a text was not cut into tokens.
#[derive(Clone, Copy, PartialEq, Eq, Debug, Error)]
pub enum LexRefusal {
    /// The first byte at which no token, blank or comment stands.
    #[error("no token at line {line}, column {column}", line = .0.line, column = .0.column)]
    At(Place),
    /// There was no memory for the tokens.
    #[error("out of memory")]
    Memory,
}

impl From<AllocError> for LexRefusal {
    ghost use Rattle.sep_lex.specs.declared.refusal.LexRefusal.TheVariants.{Memory};

    ghost from_gives = { λ _ e. e ≡ Memory };

    fn from(_: AllocError) -> Self {
        LexRefusal::Memory
    }
}

impl<T: Drop> From<AllocFailed<T>> for LexRefusal {
    ghost use Rattle.sep_lex.specs.declared.refusal.LexRefusal.TheVariants.{Memory};

    ghost from_gives = { λ _ e. e ≡ Memory };

    fn from(_: AllocFailed<T>) -> Self {
        LexRefusal::Memory
    }
}
