//! Why a value has no image.

ghost use Rattle.std.specs.Prelude.{◌≡◌};

use std::alloc::AllocError;
use thiserror::Error;

/// Why a value has no image in a representation.
#[derive(Clone, Copy, PartialEq, Eq, Debug, Error)]
pub enum NoFit {
    /// The least element or key that is not below the bound.
    #[error("{0} is not below the bound")]
    Element(u64),
    /// There was no memory.
    #[error("out of memory")]
    Memory,
}

impl From<AllocError> for NoFit {
    ghost use Rattle.images.specs.declared.fit.NoFit.TheVariants.{Memory};

    ghost from_gives = { λ _ e. e ≡ Memory };

    fn from(_: AllocError) -> Self {
        NoFit::Memory
    }
}
