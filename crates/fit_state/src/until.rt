//! Instructions between binds are passed, no further than needed.

ghost use Rattle.std.specs.Prelude.{◌≡◌, ℕ, ◌∷◌, [], IfOk, MatchOption};
ghost use Rattle.fit_state.specs.Passing.{Fails, GoesTo, StopsTo};
ghost use Rattle.fit_state.specs.States.{Grows, Is};
ghost use Rattle.fit_tokens.specs.Changes.{tokens_of};
ghost use Rattle.fits.specs.Follow as f;
ghost use Rattle.fits.specs.Follow.{Views};
ghost use Rattle.fits.specs.Places.{State, goners, hold_words, none_left};

use crate::left::left_below;
use crate::state::FitState;
use crate::step::{Step, pass_one};
use fit_tokens::Token;
use std::alloc::AllocError;
use target_code::Instr;

/// Passes instructions until a register holds these words: what is left, or none where it never does.
pub fn pass_until_held<'a>(
    state: &mut FitState,
    regs: u32,
    code: &'a [Instr],
    reg: u32,
    words: &[Token],
) -> Result<Option<&'a [Instr]>, AllocError>
    ensures passed { IfOk result (λ rest. (V : Views) (s : State) → Is regs state.old s
        → MatchOption rest (Fails (f.pass_until regs V (λ u. hold_words u.toks (reg ∷ []) (tokens_of words.now)) s code.now))
        (λ left. StopsTo regs V s state.new left.now (λ u. hold_words u.toks (reg ∷ []) (tokens_of words.now)) code.now)) }
    ensures grows { IfOk result (λ rest. Grows state.old state.new) }
{
    let mut rest = code;
    'each: while !state.tokens.hold(&[reg], words) {
        let [first, others @ ..] = rest else {
            return Ok(None);
        };
        match pass_one(state, regs, first)? {
            Step::Passed => rest = others,
            Step::Stops | Step::Fails => return Ok(None),
        }
    }
    Ok(Some(rest))
}

/// Passes instructions until no container of a variable from this one on is left, where these are gone besides: what is left of the code,
/// or none where it never is so.
pub fn pass_until_none_left<'a>(
    state: &mut FitState,
    regs: u32,
    code: &'a [Instr],
    mark: u64,
    gone: &[u32],
) -> Result<Option<&'a [Instr]>, AllocError>
    ensures passed { IfOk result (λ rest. (V : Views) (s : State) → Is regs state.old s
        → MatchOption rest (Fails (f.pass_until regs V (λ u. none_left mark (goners gone.now u.hold) u.entries) s code.now))
        (λ left. StopsTo regs V s state.new left.now (λ u. none_left mark (goners gone.now u.hold) u.entries) code.now)) }
    ensures grows { IfOk result (λ rest. Grows state.old state.new) }
{
    let mut rest = code;
    let mut left = left_below(&state.rules.context, mark, gone, state.rules.context.len());
    'each: while left > 0 {
        let [first, others @ ..] = rest else {
            return Ok(None);
        };
        match pass_one(state, regs, first)? {
            Step::Passed => rest = others,
            Step::Stops | Step::Fails => return Ok(None),
        }
        left = left_below(&state.rules.context, mark, gone, left);
    }
    Ok(Some(rest))
}
