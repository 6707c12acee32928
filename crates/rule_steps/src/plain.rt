//! Binds that are never refused.

ghost use Rattle.std.specs.Prelude.{◌≡◌, ◌≤◌, length, OnOk};
ghost use Rattle.nres_core.specs.FlatTree.{binds_of};
ghost use Rattle.rule_check.specs.Steps.{any_ctx, assert_ctx, calc_ctx};
ghost use Rattle.rule_check.specs.Steps as d;
ghost use Rattle.rule_steps.specs.States.{Grows, ctx_of};

use crate::state::State;
use facts::Calculation;
use nres_core::{Arg, FlatBind};
use ownership::{Entry, Shape};
use std::alloc::{AllocError, Global};
use target_code::{Calc, Rep};

/// What a calculation gives.
fn calc_rep(word: Calc) -> Rep
    ensures { result ≡ d.calc_rep word }
{
    match word {
        Calc::Lt | Calc::Le | Calc::Eq | Calc::Ne | Calc::And | Calc::Or => Rep::Flag,
        _ => Rep::Word,
    }
}

/// A calculation.
pub fn calculate(state: &mut State, calculation: Calculation) -> Result<(), AllocError>
    requires { state.old.start ≤ length state.old.calculations }
    ensures context { OnOk result (ctx_of state.new ≡ calc_ctx (ctx_of state.old) calculation.place calculation.to calculation.word calculation.left calculation.right) }
    ensures grows { OnOk result (Grows state.old state.new) }
{
    let shape = Shape {
        rep: calc_rep(calculation.word),
        tag: 0,
    };
    state.context.add(Entry::owned(calculation.to, shape))?;
    state
        .facts
        .know_calc(calculation.word, calculation.to, calculation.right)?;
    state.calculations.add(calculation)?;
    Ok(())
}

/// Any number below another.
pub fn choose(state: &mut State, out: u32, high: Arg) -> Result<(), AllocError>
    ensures context { OnOk result (ctx_of state.new ≡ any_ctx (ctx_of state.old) out high) }
    ensures grows { OnOk result (Grows state.old state.new) }
{
    let shape = Shape {
        rep: Rep::Word,
        tag: 0,
    };
    state.context.add(Entry::owned(out, shape))?;
    state.facts.know_any(out, high)?;
    Ok(())
}

/// A test that holds, which these binds compute.
pub fn assert_step(
    alloc: Global,
    state: &mut State,
    inner: &[FlatBind],
    test: Arg,
) -> Result<(), AllocError>
    ensures context { OnOk result (ctx_of state.new ≡ assert_ctx (ctx_of state.old) (binds_of inner.now) test) }
    ensures grows { OnOk result (Grows state.old state.new) }
{
    state
        .calculations
        .learn_assert(alloc, inner, test, &mut state.facts)?;
    Ok(())
}
