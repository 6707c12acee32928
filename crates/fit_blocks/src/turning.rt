//! Where the condition of a loop ends, and where the loop ends.

ghost use Rattle.std.specs.Prelude.{◌≡◌, ℕ, [], IfOk, OnOk};
ghost use Rattle.fit_blocks.specs.Loops.{HeadEnds, LoopCloses, LoopEnds, TestMet, body_opened};
ghost use Rattle.fit_state.specs.States.{Is};
ghost use Rattle.fits.specs.Places.{State};
ghost use Rattle.nres_core.specs.FlatTree.{binds_of};
ghost use Rattle.rule_check.specs.Facts.{defs_in, learnt};

use crate::block::close_block;
use crate::ending::end_test;
use crate::frame::{Over, Unmet};
use crate::looping::{Loop, Starting};
use fit_state::{FitState, Rest, all_fresh, arg_info, bind_at, in_order, same_shapes};
use fit_tokens::Change;
use proof_text::ProofLine;
use sqlite_items::Items;
use std::alloc::{AllocError, Global};

/// A loop whose condition was followed.
#[derive(Drop)]
pub struct Headed<'a> {
    /// The tokens that it changed.
    pub changes: Items<Change>,
    /// The variables so far are below this.
    pub next: u64,
    /// The lines behind it.
    pub lines: &'a [ProofLine],
}

/// The condition of a loop, whose binds were followed, ends, and its body begins.
pub fn end_head<'a>(
    alloc: Global,
    regs: u32,
    state: &mut FitState,
    rest: Rest<'a>,
    looping: &Loop,
    starting: &Starting,
) -> Result<Result<Headed<'a>, Unmet<'a>>, AllocError>
    ensures ends { IfOk result (λ headed. HeadEnds regs state.old rest.entry looping.now starting.now state.new headed) }
{
    if !end_test(state, regs, rest.code, looping.inner.next)? {
        return Ok(Err(Unmet { lines: rest.lines }));
    }
    if !test_met(alloc, state, looping, starting)? {
        return Ok(Err(Unmet { lines: rest.lines }));
    }
    let next = state.next;
    let changes = state.tokens.changes(alloc)?;
    match open_body(alloc, state, looping, starting) {
        Ok(()) => Ok(Ok(Headed {
            changes,
            next,
            lines: rest.lines,
        })),
        Err(error) => {
            drop(changes);
            Err(error)
        }
    }
}

/// Whether the register of a loop's test has its word, and those of its variables still have theirs.
fn test_met(
    alloc: Global,
    state: &FitState,
    looping: &Loop,
    starting: &Starting,
) -> Result<bool, AllocError>
    ensures { IfOk result (λ met. (R : ℕ) (s : State) → Is R state.now s → TestMet looping.now starting.now s met) }
{
    let Some(info) = arg_info(alloc, state, starting.test)? else {
        return Ok(false);
    };
    let words = all_fresh(alloc, starting.vars, looping.shapes.as_slice())?;
    Ok(
        state
            .tokens
            .hold(&[looping.code.head.test], info.words.as_slice())
            && state.tokens.hold(looping.code.targets, words.as_slice()),
    )
}

/// The condition is over, and its test holds in the body that begins.
fn open_body(
    alloc: Global,
    state: &mut FitState,
    looping: &Loop,
    starting: &Starting,
) -> Result<(), AllocError>
    ensures { OnOk result (state.new ≡ body_opened looping.now.inner (learnt (defs_in (binds_of starting.now.cond.now) []) starting.now.test) state.old) }
{
    close_block(state, looping.inner);
    state.rules.start = state.rules.calculations.len();
    state.rules.calculations.learn_assert(
        alloc,
        starting.cond,
        starting.test,
        &mut state.rules.facts,
    )
}

/// A loop ends behind its body.
pub fn end_loop<'a>(
    alloc: Global,
    regs: u32,
    state: &mut FitState,
    over: &Over<'a>,
    looping: &Loop<'a>,
    turned: (&Headed, &[u32]),
) -> Result<Result<Rest<'a>, Unmet<'a>>, AllocError>
    ensures ends { IfOk result (λ ended. LoopEnds regs state.old over.now looping.now turned.entry.0.now turned.entry.1.now state.new ended) }
{
    if close_loop(alloc, regs, state, over, looping, turned)? {
        Ok(Ok(Rest {
            code: looping.code.head.rest,
            lines: over.lines,
        }))
    } else {
        Ok(Err(Unmet { lines: over.lines }))
    }
}

fn close_loop(
    alloc: Global,
    regs: u32,
    state: &mut FitState,
    body: &Over,
    looping: &Loop,
    turned: (&Headed, &[u32]),
) -> Result<bool, AllocError>
    ensures closes { IfOk result (λ over. LoopCloses regs state.old body.now looping.now turned.entry.0.now turned.entry.1.now state.new over) }
{
    let (headed, outs) = turned;
    let shapes = looping.shapes.as_slice();
    let next = headed.next.max(state.next);
    if !same_shapes(body.shapes.as_slice(), shapes) || !in_order(next, outs, shapes) {
        return Ok(false);
    }
    if !state.tokens.undo_kept(alloc)? {
        return Ok(false);
    }
    state.tokens.put_all(headed.changes.as_slice())?;
    close_block(state, looping.begun);
    state.next = next;
    bind_at(alloc, state, looping.code.targets, outs, shapes)?;
    Ok(true)
}
