//! An operation with its row, and what the rule check does with it.

ghost use Rattle.std.specs.Prelude.{IfOk};
ghost use Rattle.fit_steps.specs.Applied.{Taken};

use fit_state::{FitState, Info};
use nres_core::Row;
use rule_steps::{Operation, apply};
use std::alloc::{AllocError, Global};
use target_code::Name;

/// An operation, what stands for its arguments, and its row.
#[derive(Clone, Copy)]
pub(crate) struct Applying<'a> {
    /// The names of variables.
    pub names: &'a [Name],
    /// How many registers the procedure has.
    pub regs: u32,
    /// The operation.
    pub operation: Operation<'a>,
    /// What stands for its arguments.
    pub infos: &'a [Info],
    /// Its row.
    pub row: Row,
}

/// What the rule check does with an operation whose results come in order: whether it passes.
pub(crate) fn take(
    alloc: Global,
    names: &[Name],
    state: &mut FitState,
    operation: &Operation,
) -> Result<bool, AllocError>
    ensures applied { IfOk result (λ passed. Taken names.now operation.now state.old state.new passed) }
{
    match apply(alloc, names, &mut state.rules, operation)? {
        None => Ok(true),
        Some(refusal) => {
            drop(refusal);
            Ok(false)
        }
    }
}
