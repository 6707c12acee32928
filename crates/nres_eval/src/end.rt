//! How an evaluation ends without results.

ghost use Rattle.std.specs.Prelude.{◌≡◌};

use std::alloc::AllocError;
use thiserror::Error;

/// Why an evaluation has no results. A line counts from 1.
#[derive(Clone, Copy, PartialEq, Eq, Debug, Error)]
pub enum EvalEnd {
    /// The path fails at a line.
    #[error("line {0} fails")]
    Fails(u64),
    /// A loop at a line would begin one turn too many, or a call at a line would be made too deep in calls.
    #[error("line {0} takes too many turns")]
    OutOfTurns(u64),
    /// There was no memory.
    #[error("out of memory")]
    Memory,
}

impl From<AllocError> for EvalEnd {
    ghost use Rattle.nres_eval.specs.declared.end.EvalEnd.TheVariants.{Memory};

    ghost from_gives = { λ _ e. e ≡ Memory };

    fn from(_: AllocError) -> Self {
        EvalEnd::Memory
    }
}
