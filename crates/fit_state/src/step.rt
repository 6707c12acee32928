//! An instruction that may stand anywhere.

ghost use Rattle.std.specs.Prelude.{◌≡◌, ℕ, IfOk, option_map};
ghost use Rattle.entry_falls.specs.Falls.{AllFell};
ghost use Rattle.fit_state.specs.Passing.{FreeIs, PutIs, StepIs};
ghost use Rattle.fit_state.specs.States.{Grows, Is};
ghost use Rattle.fit_tokens.specs.Changes.{token_of};
ghost use Rattle.fits.specs.Follow.{owner};
ghost use Rattle.fits.specs.Places.{State};

use crate::owner::owner;
use crate::state::FitState;
use fit_tokens::Token;
use std::alloc::{AllocError, Global};
use target_code::Instr;

/// What becomes of an instruction between binds.
#[derive(Clone, Copy)]
pub enum Step {
    /// It is passed.
    Passed,
    /// It is none that may stand anywhere.
    Stops,
    /// It is not as it must be.
    Fails,
}

/// Passes an instruction that may stand anywhere.
pub(crate) fn pass_one(state: &mut FitState, regs: u32, instr: &Instr) -> Result<Step, AllocError>
    ensures step { IfOk result (λ step. StepIs regs instr.now state.old state.new step) }
    ensures grows { IfOk result (λ step. Grows state.old state.new) }
    ensures fell { IfOk result (λ step. AllFell state.old.rules.context.spots state.new.rules.context.spots) }
{
    match instr {
        Instr::Const { to, value } => put(state, regs, *to, Some(Token::Number(*value))),
        Instr::Mov { to, from } => {
            let token = state.tokens.get(*from);
            put(state, regs, *to, token)
        }
        Instr::Free { block } => free(state, *block),
        _ => Ok(Step::Stops),
    }
}

/// A register below the bound gets a token, or none.
fn put(state: &mut FitState, regs: u32, to: u32, token: Option<Token>) -> Result<Step, AllocError>
    ensures step { IfOk result (λ step. PutIs regs to (option_map token_of token) state.old state.new step) }
    ensures grows { IfOk result (λ step. Grows state.old state.new) }
    ensures rules { state.new.rules ≡ state.old.rules }
{
    if to < regs {
        state.tokens.set(to, token)?;
        Ok(Step::Passed)
    } else {
        Ok(Step::Fails)
    }
}

/// The container that owns the block of a register is gone.
fn free(state: &mut FitState, block: u32) -> Result<Step, AllocError>
    ensures step { IfOk result (λ step. FreeIs block state.old state.new step) }
    ensures grows { IfOk result (λ step. Grows state.old state.new) }
    ensures fell { IfOk result (λ step. AllFell state.old.rules.context.spots state.new.rules.context.spots) }
{
    match owner_of(state, block) {
        Some(var) => {
            state.rules.context.go(var)?;
            Ok(Step::Passed)
        }
        None => Ok(Step::Fails),
    }
}

fn owner_of(state: &FitState, block: u32) -> Option<u32>
    ensures { (R : ℕ) (s : State) → Is R state.now s → result ≡ owner s.entries s.hold (s.toks block) }
{
    match state.tokens.get(block) {
        Some(token) => owner(state, token),
        None => None,
    }
}
