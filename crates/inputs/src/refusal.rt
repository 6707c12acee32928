//! Why values are not those of the parameters.

ghost use Rattle.std.specs.Prelude.{◌≡◌};

use std::alloc::AllocError;
use target_code::Name;
use thiserror::Error;

/// What is wrong with the value of a name.
#[derive(Clone, Copy, Debug)]
pub enum InputFault {
    /// No parameter has the name.
    Unknown,
    /// An earlier line gives it a value.
    Twice,
    /// The value has another type than the parameter.
    Type_,
    /// This element or key, the least such, is not below the bound of the representation in which the value is to lie.
    Fit(u64),
    /// No line gives it a value.
    Missing,
}

/// Why there are no values for the parameters.
#[derive(Debug, Drop, Error)]
pub enum InputRefusal<'a> {
    /// The value of this name is at fault.
    #[error("the value of a parameter is at fault")]
    Refused {
        /// The name.
        name: &'a Name,
        /// What is wrong.
        fault: InputFault,
    },
    /// There was no memory.
    #[error("out of memory")]
    Memory,
}

impl<'a> From<AllocError> for InputRefusal<'a> {
    ghost use Rattle.inputs.specs.declared.refusal.InputRefusal.TheVariants.{Memory};

    ghost from_gives = { λ _ e. e ≡ Memory };

    fn from(_: AllocError) -> Self {
        InputRefusal::Memory
    }
}
