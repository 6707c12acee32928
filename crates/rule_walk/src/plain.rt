//! Binds without blocks.

ghost use Rattle.std.specs.Prelude.{◌≡◌, IfOk};
ghost use Rattle.nres_core.specs.FlatTree as t;
ghost use Rattle.nres_core.specs.FlatTree.{binds_of};
ghost use Rattle.nres_core.specs.declared.flat.Arg.{Arg as ArgOf};
ghost use Rattle.nres_core.specs.declared.place.Place.{Place};
ghost use Rattle.rule_steps.specs.States.{Grows};
ghost use Rattle.rule_walk.specs.Walks.{IsOpen, Walked, book_in};

use crate::book::Book;
use facts::Calculation;
use nres_core::{Arg, FlatBind, Refusal};
use rule_steps::{Operation, State, apply, assert_step, calculate, choose};
use std::alloc::{AllocError, Global};

/// A calculation.
pub(crate) fn walk_calc(
    book: &Book,
    state: &mut State,
    calculation: Calculation,
) -> Result<Option<Refusal>, AllocError>
    requires { IsOpen state.old }
    ensures walked { IfOk result (λ refused. Walked (book_in book.now) (t.Calc_to calculation.place calculation.to calculation.word calculation.left calculation.right) state.old state.new refused) }
    ensures grows { IfOk result (λ refused. Grows state.old state.new) }
{
    calculate(state, calculation)?;
    Ok(None)
}

/// Any number below another.
pub(crate) fn walk_any(
    book: &Book,
    state: &mut State,
    out: u32,
    high: Arg,
) -> Result<Option<Refusal>, AllocError>
    ensures walked { IfOk result (λ refused. (place : Place) (low : ArgOf) → Walked (book_in book.now) (t.Any place out low high) state.old state.new refused) }
    ensures grows { IfOk result (λ refused. Grows state.old state.new) }
{
    choose(state, out, high)?;
    Ok(None)
}

/// A test that holds.
pub(crate) fn walk_assert(
    alloc: Global,
    book: &Book,
    state: &mut State,
    inner: &[FlatBind],
    test: Arg,
) -> Result<Option<Refusal>, AllocError>
    ensures walked { IfOk result (λ refused. (place : Place) → Walked (book_in book.now) (t.Assert place (binds_of inner.now) test) state.old state.new refused) }
    ensures grows { IfOk result (λ refused. Grows state.old state.new) }
{
    assert_step(alloc, state, inner, test)?;
    Ok(None)
}

/// An operation.
pub(crate) fn walk_apply(
    alloc: Global,
    book: &Book,
    state: &mut State,
    operation: &Operation,
) -> Result<Option<Refusal>, AllocError>
    ensures walked { IfOk result (λ refused. Walked (book_in book.now) (t.Apply_to operation.now.place operation.now.outs.now operation.now.op operation.now.made operation.now.args.now) state.old state.new refused) }
    ensures grows { IfOk result (λ refused. Grows state.old state.new) }
{
    apply(alloc, book.names, state, operation)
}
