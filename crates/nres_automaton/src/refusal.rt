//! Why a text is no specification.

ghost use Rattle.std.specs.Prelude.{◌≡◌};

use nres_core::Place;
use std::alloc::{AllocError, AllocFailed};
use thiserror::Error;

/// Why a text was not read.
#[derive(Clone, Copy, PartialEq, Eq, Debug, Error)]
pub enum SyntaxRefusal {
    /// The first byte at which no token, blank or comment stands; or the first token with which no specification can
    /// begin; or the place behind the last byte, where the text only ends too early.
    #[error("no specification at line {line}, column {column}", line = .0.line, column = .0.column)]
    At(Place),
    /// The first token with which no specification can begin, where only a limit refuses it: it would be the 65th open
    /// block or bracket, or the 1,001st operator of one expression.
    #[error("too deep at line {line}, column {column}", line = .0.line, column = .0.column)]
    TooDeep(Place),
    /// There was no memory.
    #[error("out of memory")]
    Memory,
}

impl From<AllocError> for SyntaxRefusal {
    ghost use Rattle.nres_automaton.specs.declared.refusal.SyntaxRefusal.TheVariants.{Memory};

    ghost from_gives = { λ _ e. e ≡ Memory };

    fn from(_: AllocError) -> Self {
        SyntaxRefusal::Memory
    }
}

impl<T: Drop> From<AllocFailed<T>> for SyntaxRefusal {
    ghost use Rattle.nres_automaton.specs.declared.refusal.SyntaxRefusal.TheVariants.{Memory};

    ghost from_gives = { λ _ e. e ≡ Memory };

    fn from(_: AllocFailed<T>) -> Self {
        SyntaxRefusal::Memory
    }
}
