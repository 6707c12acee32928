//! Where a loop begins, where its condition ends, and where it ends.

ghost use Rattle.std.specs.Prelude.{◌≡◌, [], length, IfOk, OnOk};
ghost use Rattle.nres_core.specs.FlatTree.{binds_of, flats_of};
ghost use Rattle.ownership.specs.Entries.{spots_of};
ghost use Rattle.rule_check.specs.Context as d;
ghost use Rattle.rule_check.specs.Facts.{defs_in, learnt};
ghost use Rattle.rule_walk.specs.Turns.{BeginsLoop, HeadOver, LoopCloses, LoopOver, TurnCloses, begun_at, head_closed, head_held, head_left, head_opened, listed};
ghost use Rattle.rule_walk.specs.Walks.{book_in};

use crate::book::Book;
use crate::sides::{Begun, bind_results, close_side};
use nres_core::{Arg, FlatBind, FlatBlock, Place, Refusal};
use ownership::{Context, Entry, looked_up};
use rule_steps::{State, end_turn, start_loop};
use sqlite_items::Items;
use std::alloc::{AllocError, Global};

/// A loop that is open.
#[derive(Drop)]
pub(crate) struct Loop {
    /// The entries of its starting values.
    pub starts: Items<Entry>,
    /// What there was where it began, after these had moved in.
    pub begun: Begun,
}

/// The head of a loop.
#[derive(Clone, Copy)]
pub(crate) struct Starting<'a> {
    /// The place.
    pub place: Place,
    /// The starting values.
    pub starts: &'a [Arg],
    /// The variables that they begin as.
    pub vars: &'a [u32],
}

/// The condition of a loop.
#[derive(Clone, Copy)]
pub(crate) struct Condition<'a> {
    /// Its binds.
    pub binds: &'a [FlatBind],
    /// Its test.
    pub test: Arg,
}

/// A turn of a loop, and the variables of the loop's results.
#[derive(Clone, Copy)]
pub(crate) struct Turn<'a> {
    /// The block.
    pub block: &'a FlatBlock,
    /// The variables.
    pub outs: &'a [u32],
}

/// A list of binds begins.
pub(crate) fn begin_list(state: &mut State)
    ensures { state.new ≡ listed state.old }
{
    state.start = state.calculations.len();
}

/// The starting values of a loop move in, and its condition begins.
pub(crate) fn begin_loop(
    alloc: Global,
    book: &Book,
    state: &mut State,
    starting: &Starting,
) -> Result<Result<Loop, Refusal>, AllocError>
    ensures { IfOk result (λ looping. BeginsLoop (book_in book.now) starting.now.place starting.now.starts.now starting.now.vars.now state.old looping state.new) }
{
    let starts = looked_up(alloc, &state.context, starting.starts)?;
    match start_loop(
        alloc,
        book.names,
        &mut state.context,
        starting.place,
        starts.as_slice(),
    ) {
        Ok(None) => Ok(Ok(open_loop(alloc, state, starting.vars, starts)?)),
        Ok(Some(refusal)) => {
            drop(starts);
            Ok(Err(refusal))
        }
        Err(error) => {
            drop(starts);
            Err(error)
        }
    }
}

/// A loop whose starting values, with these entries, have moved in: its condition begins.
fn open_loop(
    alloc: Global,
    state: &mut State,
    vars: &[u32],
    starts: Items<Entry>,
) -> Result<Loop, AllocError>
    ensures starts { IfOk result (λ looping. looping.starts ≡ starts) }
    ensures begun { IfOk result (λ looping. looping.begun ≡ begun_at state.old) }
    ensures state { OnOk result (state.new ≡ head_opened state.old vars.now (record { shapes = d.shapes_of (spots_of starts); spots = state.old.context.spots })) }
{
    let begun = Begun {
        count: state.context.len(),
        facts: state.facts.len(),
        start: state.start,
    };
    match open_head(alloc, &mut state.context, vars, starts.as_slice()) {
        Ok(()) => Ok(Loop { starts, begun }),
        Err(error) => {
            drop(starts);
            Err(error)
        }
    }
}

/// Inside a loop containers from outside are kept, and in its condition those of the loop are too.
fn open_head(
    alloc: Global,
    context: &mut Context,
    vars: &[u32],
    starts: &[Entry],
) -> Result<(), AllocError>
    ensures { OnOk result (context.new ≡ head_held vars.now (d.shapes_of (spots_of starts.now)) context.old) }
{
    context.mark()?;
    context.lend();
    bind_results(alloc, context, vars, starts)?;
    context.mark()?;
    context.lend();
    Ok(())
}

/// The condition is over: its test holds in the turn that begins.
pub(crate) fn end_head(
    alloc: Global,
    state: &mut State,
    looping: Loop,
    said: Result<Option<Refusal>, AllocError>,
    condition: &Condition,
) -> Result<Result<Loop, Refusal>, AllocError>
    ensures { IfOk result (λ over. HeadOver said looping (learnt (defs_in (binds_of condition.now.binds.now) []) condition.now.test) state.old over state.new) }
{
    match said {
        Ok(None) => match open_turn(alloc, state, looping.begun, condition) {
            Ok(()) => Ok(Ok(looping)),
            Err(error) => {
                drop(looping);
                Err(error)
            }
        },
        Ok(Some(refusal)) => {
            leave_head(state, looping.begun);
            drop(looping);
            Ok(Err(refusal))
        }
        Err(error) => {
            drop(looping);
            Err(error)
        }
    }
}

fn open_turn(
    alloc: Global,
    state: &mut State,
    begun: Begun,
    condition: &Condition,
) -> Result<(), AllocError>
    ensures { OnOk result (state.new ≡ head_closed begun (learnt (defs_in (binds_of condition.now.binds.now) []) condition.now.test) state.old) }
{
    state.context.undo();
    state.facts.leave(begun.facts);
    state.calculations.leave(state.start);
    state
        .calculations
        .learn_assert(alloc, condition.binds, condition.test, &mut state.facts)
}

/// All is as it was before the loop, but that its starting values moved in.
fn leave_head(state: &mut State, begun: Begun)
    ensures { state.new ≡ head_left begun state.old }
{
    state.context.undo();
    close_side(state, begun);
}

/// A turn is over, and with it the loop: its results are bound.
pub(crate) fn end_loop(
    alloc: Global,
    book: &Book,
    state: &mut State,
    looping: Loop,
    said: Result<Option<Refusal>, AllocError>,
    turn: &Turn,
) -> Result<Option<Refusal>, AllocError>
    ensures { IfOk result (λ refused. LoopOver (book_in book.now) said looping (flats_of turn.now.block.now) turn.now.outs.now state.old refused state.new) }
{
    match said {
        Ok(None) => {
            let refused = close_loop(alloc, book, state, &looping, turn);
            drop(looping);
            refused
        }
        Ok(Some(refusal)) => {
            close_side(state, looping.begun);
            drop(looping);
            Ok(Some(refusal))
        }
        Err(error) => {
            drop(looping);
            Err(error)
        }
    }
}

fn close_loop(
    alloc: Global,
    book: &Book,
    state: &mut State,
    looping: &Loop,
    turn: &Turn,
) -> Result<Option<Refusal>, AllocError>
    ensures turned { IfOk result (λ refused. TurnCloses (book_in book.now) looping.now (flats_of turn.now.block.now) state.old refused) }
    ensures closes { IfOk result (λ refused. LoopCloses refused looping.now turn.now.outs.now state.old state.new) }
{
    let starts = looping.starts.as_slice();
    match end_turn(
        alloc,
        book.names,
        &mut state.context,
        looping.begun.count,
        starts,
        turn.block,
    )? {
        None => {
            close_side(state, looping.begun);
            bind_results(alloc, &mut state.context, turn.outs, starts)?;
            Ok(None)
        }
        Some(refusal) => {
            close_side(state, looping.begun);
            Ok(Some(refusal))
        }
    }
}
