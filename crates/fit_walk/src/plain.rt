//! Binds without blocks.

ghost use Rattle.std.specs.Prelude.{◌≡◌, ℕ, true, IfOk};
ghost use Rattle.fit_blocks.specs.Answers.{At, BindIs, IsOpen};
ghost use Rattle.fit_state.specs.Rests.{ViewsAre};
ghost use Rattle.fit_state.specs.States.{Grows};
ghost use Rattle.fit_steps.specs.Going.{GrowsBy};
ghost use Rattle.fit_walk.specs.Plains.{IsPlain, PlainIs};
ghost use Rattle.fits.specs.Follow.{Views};
ghost use Rattle.fits.specs.Places.{State};
ghost use Rattle.nres_core.specs.FlatTree as t;
ghost use Rattle.nres_core.specs.FlatTree.{before_of, binds_of};
ghost use Rattle.nres_core.specs.declared.place.Place.{Place};
ghost use Rattle.proof_lines.specs.Lines.{lines_of};

use facts::Calculation;
use fit_blocks::{Frame, Unmet, assert_step};
use fit_state::{FitState, Rest};
use fit_steps::{Calling, Choice, any_step, apply_step, calc_step, use_step};
use nres_core::{Arg, FlatBind};
use rule_steps::Operation;
use std::alloc::{AllocError, Global};

/// A bind without blocks.
pub(crate) fn walk_plain<'a>(
    alloc: Global,
    frame: &Frame,
    state: &mut FitState,
    rest: Rest<'a>,
    bind: &FlatBind,
) -> Result<Result<Rest<'a>, Unmet<'a>>, AllocError>
    ensures followed { IfOk result (λ over. (V : Views) (s : State) → ViewsAre frame.now.views V → At frame.now.regs state.old s → IsOpen state.old → IsPlain (before_of bind.now t.No_bind)
        → BindIs frame.now.regs V (before_of bind.now) s rest.entry.code.now (lines_of rest.entry.lines.now) state.new over) }
    ensures grows { IfOk result (λ over. IfOk over (λ rest. Grows state.old state.new)) }
{
    if !is_open(state) {
        return Ok(Err(Unmet { lines: rest.lines }));
    }
    match step_plain(alloc, frame, state, rest, bind)? {
        Some(left) => Ok(Ok(left)),
        None => Ok(Err(Unmet { lines: rest.lines })),
    }
}

/// Whether the calculations of the list of binds are the newest.
fn is_open(state: &FitState) -> bool
    ensures open { result ≡ true → IsOpen state.now }
    ensures shut { IsOpen state.now → result ≡ true }
{
    state.rules.start <= state.rules.calculations.len()
}

fn step_plain<'a>(
    alloc: Global,
    frame: &Frame,
    state: &mut FitState,
    rest: Rest<'a>,
    bind: &FlatBind,
) -> Result<Option<Rest<'a>>, AllocError>
    requires { IsOpen state.old }
    ensures stepped { IfOk result (λ left. (V : Views) (s : State) → ViewsAre frame.now.views V → At frame.now.regs state.old s → IsPlain (before_of bind.now t.No_bind)
        → PlainIs frame.now.regs V (before_of bind.now) s rest.entry.code.now (lines_of rest.entry.lines.now) state.new left) }
    ensures grows { IfOk result (λ left. GrowsBy state.old state.new left) }
{
    match bind {
        FlatBind::Calc {
            place,
            out,
            word,
            left,
            right,
        } => {
            let calculation = Calculation {
                place: *place,
                to: *out,
                word: *word,
                left: *left,
                right: *right,
            };
            calc_step(alloc, frame.regs, state, rest, &calculation)
        }
        FlatBind::Apply {
            place,
            outs,
            op,
            made,
            args,
        } => {
            let operation = Operation {
                place: *place,
                op: *op,
                made: *made,
                args: args.as_slice(),
                outs: outs.as_slice(),
            };
            apply_step(alloc, &frame.views, frame.regs, state, rest, &operation)
        }
        FlatBind::Assert { inner, test, .. } => {
            step_assert(alloc, state, rest, inner.as_slice(), *test)
        }
        FlatBind::Any { out, low, high, .. } => {
            let choice = Choice {
                out: *out,
                low: *low,
                high: *high,
            };
            any_step(alloc, frame.regs, state, rest, &choice)
        }
        FlatBind::Call {
            place,
            outs,
            fun,
            args,
        } => {
            let calling = Calling {
                place: *place,
                outs: outs.as_slice(),
                fun: *fun,
                args: args.as_slice(),
            };
            use_step(alloc, &frame.views, frame.regs, state, rest, &calling)
        }
        _ => Ok(None),
    }
}

/// An assert.
fn step_assert<'a>(
    alloc: Global,
    state: &mut FitState,
    rest: Rest<'a>,
    inner: &[FlatBind],
    test: Arg,
) -> Result<Option<Rest<'a>>, AllocError>
    ensures stepped { IfOk result (λ left. (R : ℕ) (V : Views) (s : State) (p : Place) → At R state.old s
        → PlainIs R V (t.Assert p (binds_of inner.now) test) s rest.entry.code.now (lines_of rest.entry.lines.now) state.new left) }
    ensures grows { IfOk result (λ left. GrowsBy state.old state.new left) }
{
    if assert_step(alloc, state, inner, test)? {
        Ok(Some(rest))
    } else {
        Ok(None)
    }
}
