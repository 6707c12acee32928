//! Blocks that are one of two sides.

ghost use Rattle.std.specs.Prelude.{◌≡◌, length, IfOk, OnOk};
ghost use Rattle.context_laws.specs.Stacks.{falls_at};
ghost use Rattle.context_laws.specs.Steps.{with_spots};
ghost use Rattle.nres_core.specs.FlatTree.{flats_of};
ghost use Rattle.ownership.specs.Entries.{spots_of};
ghost use Rattle.rule_check.specs.Context as d;
ghost use Rattle.rule_walk.specs.Sides.{ClosesTo, EndIs, closed, opened};
ghost use Rattle.rule_walk.specs.Walks.{book_in};

use crate::book::Book;
use branch_merge::Side;
use nres_core::{FlatBlock, Refusal};
use ownership::{Context, Entry, bind, shapes};
use rule_steps::{State, finish};
use std::alloc::{AllocError, Global};

/// Where a block began.
#[derive(Clone, Copy)]
pub(crate) struct Begun {
    /// How many entries there were.
    pub count: usize,
    /// How many facts there were.
    pub facts: usize,
    /// Where the list of binds around it began.
    pub start: usize,
}

/// A block begins.
pub(crate) fn open_side(state: &mut State) -> Result<Begun, AllocError>
    ensures state { OnOk result (state.new ≡ opened state.old) }
    ensures count { IfOk result (λ begun. begun.count ≡ length state.old.context.spots) }
    ensures facts { IfOk result (λ begun. begun.facts ≡ length state.old.facts) }
    ensures start { IfOk result (λ begun. begun.start ≡ state.old.start) }
{
    let begun = Begun {
        count: state.context.len(),
        facts: state.facts.len(),
        start: state.start,
    };
    state.context.mark()?;
    state.start = state.calculations.len();
    Ok(begun)
}

/// A block is over: all is as it was where it began.
pub(crate) fn close_side(state: &mut State, begun: Begun)
    ensures { state.new ≡ closed begun state.old }
{
    state.context.undo();
    state.facts.leave(begun.facts);
    state.calculations.leave(state.start);
    state.start = begun.start;
}

/// The end of a side.
pub(crate) fn end_side(
    alloc: Global,
    book: &Book,
    state: &mut State,
    begun: Begun,
    block: &FlatBlock,
) -> Result<Result<Side, Refusal>, AllocError>
    ensures end { IfOk result (λ side. EndIs (book_in book.now) begun.count state.old (flats_of block.now).ending side) }
    ensures closes { IfOk result (λ side. ClosesTo begun state.old state.new) }
{
    match finish(
        alloc,
        book.names,
        &mut state.context,
        begun.count,
        None,
        block,
    )? {
        Ok(results) => match state.context.went(alloc) {
            Ok(went) => {
                close_side(state, begun);
                Ok(Ok(Side { went, results }))
            }
            Err(error) => {
                drop(results);
                Err(error)
            }
        },
        Err(refusal) => {
            close_side(state, begun);
            Ok(Err(refusal))
        }
    }
}

/// Results with these entries are bound.
pub(crate) fn bind_results(
    alloc: Global,
    context: &mut Context,
    outs: &[u32],
    results: &[Entry],
) -> Result<(), AllocError>
    ensures ok { OnOk result (context.new ≡ with_spots context.old (d.binding outs.now (d.shapes_of (spots_of results.now)) context.old.spots)) }
    ensures saved { context.new.saved ≡ context.old.saved }
{
    let shapes = shapes(alloc, results)?;
    bind(context, outs, shapes.as_slice())
}

/// The side that was taken: what went in it is gone, and its results are bound.
pub(crate) fn take_side(
    alloc: Global,
    state: &mut State,
    outs: &[u32],
    side: &Side,
) -> Result<(), AllocError>
    ensures context { OnOk result (state.new.context ≡ with_spots state.old.context (d.binding outs.now (d.shapes_of (spots_of side.now.results)) (falls_at side.now.went state.old.context.spots))) }
    ensures facts { state.new.facts ≡ state.old.facts }
    ensures calculations { state.new.calculations ≡ state.old.calculations }
    ensures start { state.new.start ≡ state.old.start }
    ensures saved { state.new.context.saved ≡ state.old.context.saved }
{
    state.context.fall(side.went.as_slice())?;
    bind_results(alloc, &mut state.context, outs, side.results.as_slice())
}
