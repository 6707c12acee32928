//! Instructions between binds are passed.

ghost use Rattle.std.specs.Prelude.{◌≡◌, ℕ, IfOk, MatchOption};
ghost use Rattle.fit_state.specs.Passing.{Fails, GoesTo};
ghost use Rattle.fit_state.specs.States.{Grows, Is};
ghost use Rattle.fits.specs.Follow as f;
ghost use Rattle.fits.specs.Follow.{Views};
ghost use Rattle.fits.specs.Places.{State};

use crate::state::FitState;
use crate::step::{Step, pass_one};
use std::alloc::AllocError;
use target_code::Instr;

/// Passes all instructions that may stand anywhere, up to the first other one: what is left, or none where one is not as it must be.
pub fn pass_all<'a>(
    state: &mut FitState,
    regs: u32,
    code: &'a [Instr],
) -> Result<Option<&'a [Instr]>, AllocError>
    ensures passed { IfOk result (λ rest. (V : Views) (s : State) → Is regs state.old s
        → MatchOption rest (Fails (f.pass_all regs V s code.now)) (λ left. GoesTo regs s state.new left.now (f.pass_all regs V s code.now))) }
    ensures grows { IfOk result (λ rest. Grows state.old state.new) }
{
    let mut rest = code;
    'each: while let [first, others @ ..] = rest {
        match pass_one(state, regs, first)? {
            Step::Passed => rest = others,
            Step::Stops => return Ok(Some(rest)),
            Step::Fails => return Ok(None),
        }
    }
    Ok(Some(rest))
}
