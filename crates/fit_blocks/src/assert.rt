//! Asserts.

ghost use Rattle.std.specs.Prelude.{◌≡◌, ◌&&◌, ℕ, List, true, false, suc, IfOk, MatchOption};
ghost use Rattle.fit_blocks.specs.Asserts.{Asserted, PlainBind};
ghost use Rattle.fit_state.specs.States.{Grows, Is};
ghost use Rattle.fits.specs.Follow as f;
ghost use Rattle.fits.specs.Places.{State};
ghost use Rattle.nres_core.specs.FlatTree as t;
ghost use Rattle.nres_core.specs.FlatTree.{before_of, binds_of};
ghost use Rattle.nres_core.specs.declared.place.Place.{Place};
ghost use Rattle.target_code.specs.declared.tree.Calc.{Calc};

use fit_state::FitState;
use nres_core::{Arg, FlatBind};
use std::alloc::{AllocError, Global};

/// An assert: what its inner binds and its test tell, unless these binds are other than calculations and operations of new variables.
pub fn assert_step(
    alloc: Global,
    state: &mut FitState,
    inner: &[FlatBind],
    test: Arg,
) -> Result<bool, AllocError>
    ensures asserted { IfOk result (λ met. (R : ℕ) (s : State) → Is R state.old s → Asserted R s (binds_of inner.now) test state.new met) }
    ensures grows { IfOk result (λ met. met ≡ true → Grows state.old state.new) }
{
    match past_plain(state.next, inner) {
        Some(next) => {
            state
                .rules
                .calculations
                .learn_assert(alloc, inner, test, &mut state.rules.facts)?;
            state.next = next;
            Ok(true)
        }
        None => Ok(false),
    }
}

/// How far the variables of inner binds come, where these are as they must be.
fn past_plain(next: u64, inner: &[FlatBind]) -> Option<u64>
    ensures { MatchOption result (f.is_plain next (binds_of inner.now) ≡ false) (λ past. (f.is_plain next (binds_of inner.now) ≡ true) × (f.past_plain next (binds_of inner.now) ≡ past)) }
{
    let mut bound = next;
    'each: for bind in inner {
        match past_bind(bound, bind) {
            Some(past) => bound = past,
            None => return None,
        }
    }
    Some(bound)
}

fn past_bind(next: u64, bind: &FlatBind) -> Option<u64>
    ensures { PlainBind next (before_of bind.now) result }
{
    match bind {
        FlatBind::Calc {
            out,
            left,
            right,
            ..
        } => past_calc(next, *out, *left, *right),
        FlatBind::Apply { outs, .. } => past_outs(next, outs.as_slice()),
        _ => None,
    }
}

fn past_calc(next: u64, out: u32, left: Arg, right: Arg) -> Option<u64>
    ensures { (place : Place) (word : Calc) → PlainBind next (t.Calc_to place out word left right) result }
{
    if is_old(next, left) && is_old(next, right) {
        past_outs(next, &[out])
    } else {
        None
    }
}

/// How far new variables come, where they come in order.
fn past_outs(next: u64, outs: &[u32]) -> Option<u64>
    ensures { MatchOption result (f.rises next outs.now ≡ false) (λ past. (f.rises next outs.now ≡ true) × (f.past next outs.now ≡ past)) }
{
    let mut bound = next;
    'each: for out in outs {
        if u64::from(*out) < bound {
            return None;
        }
        bound = u64::from(*out) + 1;
    }
    Some(bound)
}

/// Whether an argument is no variable from a bound on.
fn is_old(next: u64, arg: Arg) -> bool
    ensures { result ≡ f.is_old next arg }
{
    match arg {
        Arg::Var(var) => u64::from(var) < next,
        Arg::Num(_) | Arg::Truth(_) => true,
    }
}
