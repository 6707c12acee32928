//! The ends of blocks, and of the conditions of loops.

ghost use Rattle.std.specs.Prelude.{◌≡◌, ◌&&◌, ℕ, true, List, Some, IfOk, MatchOption};
ghost use Rattle.fit_blocks.specs.Answers.{Ended, OverIs, ends_at};
ghost use Rattle.fit_blocks.specs.Endings.{EndsHere, EndsWith, MovedOut, TestEnds, ends_here, ends_with, is_met};
ghost use Rattle.fit_state.specs.Rests.{ViewsAre};
ghost use Rattle.proof_lines.specs.Lines.{lines_of};
ghost use Rattle.fit_state.specs.States.{Grows, Is};
ghost use Rattle.fits.specs.Follow as f;
ghost use Rattle.fits.specs.Follow.{Line, Views};
ghost use Rattle.fit_tokens.specs.Changes.{tokens_of, toks};
ghost use Rattle.fits.specs.Places.{Info as InfoOf, State, hold_words};
ghost use Rattle.fits.specs.Places as p;
ghost use Rattle.fit_state.specs.Infos.{infos_of};
ghost use Rattle.nres_core.specs.FlatTree.{flats_of};
ghost use Rattle.ownership.specs.Entries.{shapes_of};

use crate::frame::{Ends, Frame, Over, Unmet};
use fit_state::{
    FitState, Info, Rest, all_below, all_vars, all_words, arg_infos, info_shapes, none_left,
    pass_all,
};
use fit_tokens::{Token, Tokens};
use nres_core::FlatBlock;
use ownership::Shape;
use rule_steps::finish;
use sqlite_items::Items;
use std::alloc::{AllocError, Global};
use target_code::Instr;

/// The end of a block whose binds were followed.
pub fn finish_block<'a>(
    alloc: Global,
    frame: &Frame,
    state: &mut FitState,
    rest: Rest<'a>,
    block: &FlatBlock,
    ends: &Ends,
) -> Result<Result<Over<'a>, Unmet<'a>>, AllocError>
    ensures over { IfOk result (λ over. (V : Views) (s : State) → ViewsAre frame.now.views V → Is frame.now.regs state.old s
        → OverIs frame.now.regs state.new (flats_of block.now).ending ends.now.targets.now over (ends_at frame.now.regs V ends.now (flats_of block.now).ending s rest.entry.code.now (lines_of rest.entry.lines.now))) }
    ensures grows { IfOk result (λ over. IfOk over (λ o. Grows state.old state.new)) }
{
    match end_block(alloc, frame, state, rest.code, block, ends)? {
        Some(shapes) => Ok(Ok(Over {
            lines: rest.lines,
            shapes,
        })),
        None => Ok(Err(Unmet { lines: rest.lines })),
    }
}

/// What the results of a block are in, where it ends as it must.
fn end_block(
    alloc: Global,
    frame: &Frame,
    state: &mut FitState,
    code: &[Instr],
    block: &FlatBlock,
    ends: &Ends,
) -> Result<Option<Items<Shape>>, AllocError>
    ensures over { IfOk result (λ over. (V : Views) (s : State) → ViewsAre frame.now.views V → Is frame.now.regs state.old s
        → MatchOption over ((ls : List Line) → ends_at frame.now.regs V ends.now (flats_of block.now).ending s code.now ls ≡ f.Unmet ls)
        (λ shapes. Ended frame.now.regs V ends.now (flats_of block.now).ending s code.now state.new (shapes_of shapes))) }
    ensures grows { IfOk result (λ over. MatchOption over Unit (λ shapes. Grows state.old state.new)) }
{
    let Some(left) = pass_all(state, frame.regs, code)? else {
        return Ok(None);
    };
    if left.is_empty() {
        end_here(alloc, frame, state, block, ends)
    } else {
        Ok(None)
    }
}

/// The same where no code is left.
fn end_here(
    alloc: Global,
    frame: &Frame,
    state: &mut FitState,
    block: &FlatBlock,
    ends: &Ends,
) -> Result<Option<Items<Shape>>, AllocError>
    ensures over { IfOk result (λ over. (V : Views) (s : State) → ViewsAre frame.now.views V → Is frame.now.regs state.old s
        → MatchOption over ((ls : List Line) → ends_here frame.now.regs V ends.now (flats_of block.now).ending s ls ≡ f.Unmet ls)
        (λ shapes. EndsHere frame.now.regs V ends.now (flats_of block.now).ending s state.new (shapes_of shapes))) }
    ensures grows { IfOk result (λ over. MatchOption over Unit (λ shapes. Grows state.old state.new)) }
{
    match arg_infos(alloc, state, block.results.as_slice())? {
        Some(infos) => end_with(alloc, frame, state, block, ends, infos.as_slice()),
        None => Ok(None),
    }
}

/// The same where these are the results.
fn end_with(
    alloc: Global,
    frame: &Frame,
    state: &mut FitState,
    block: &FlatBlock,
    ends: &Ends,
    infos: &[Info],
) -> Result<Option<Items<Shape>>, AllocError>
    ensures over { IfOk result (λ over. (V : Views) (s : State) → ViewsAre frame.now.views V → Is frame.now.regs state.old s → p.arg_infos s.entries (flats_of block.now).ending.results ≡ Some (infos_of infos.now)
        → MatchOption over ((ls : List Line) → ends_with frame.now.regs V ends.now (flats_of block.now).ending s (infos_of infos.now) ls ≡ f.Unmet ls)
        (λ shapes. EndsWith frame.now.regs V ends.now (flats_of block.now).ending s (infos_of infos.now) state.new (shapes_of shapes))) }
    ensures grows { IfOk result (λ over. MatchOption over Unit (λ shapes. Grows state.old state.new)) }
{
    if !is_met(alloc, frame.regs, state, ends, infos)? {
        return Ok(None);
    }
    if move_out(alloc, frame, state, block, ends)? {
        let shapes = info_shapes(alloc, infos)?;
        Ok(Some(shapes))
    } else {
        Ok(None)
    }
}

/// Whether the registers of a block have its results, and nothing else is left of what it made.
fn is_met(
    alloc: Global,
    regs: u32,
    state: &FitState,
    ends: &Ends,
    infos: &[Info],
) -> Result<bool, AllocError>
    ensures { IfOk result (λ met. (R : ℕ) (s : State) → Is R state.now s → met ≡ is_met regs ends.now s (infos_of infos.now)) }
{
    let words = all_words(alloc, infos)?;
    if !are_held(&state.tokens, regs, ends.targets, words.as_slice()) {
        return Ok(false);
    }
    let vars = all_vars(alloc, infos)?;
    Ok(none_left(state, ends.mark, vars.as_slice()))
}

/// Whether registers, all below the bound, have these words.
pub(crate) fn are_held(tokens: &Tokens, regs: u32, targets: &[u32], words: &[Token]) -> bool
    ensures { result ≡ (hold_words (toks tokens.now) targets.now (tokens_of words.now) && f.all_below regs targets.now) }
{
    tokens.hold(targets, words) && all_below(regs, targets)
}

/// The results of a block move out, unless the rule check refuses it.
pub(crate) fn move_out(
    alloc: Global,
    frame: &Frame,
    state: &mut FitState,
    block: &FlatBlock,
    ends: &Ends,
) -> Result<bool, AllocError>
    ensures moved { IfOk result (λ moved. (V : Views) (s : State) → ViewsAre frame.now.views V → Is frame.now.regs state.old s → (infos : List InfoOf) → p.arg_infos s.entries (flats_of block.now).ending.results ≡ Some infos
        → MovedOut frame.now.regs V ends.now (flats_of block.now).ending s infos state.new moved) }
    ensures grows { IfOk result (λ moved. moved ≡ true → Grows state.old state.new) }
    ensures next { state.new.next ≡ state.old.next }
{
    let names = frame.views.names;
    state.rules.context.len();
    match finish(
        alloc,
        names,
        &mut state.rules.context,
        ends.count,
        ends.owed,
        block,
    )? {
        Ok(results) => {
            drop(results);
            Ok(true)
        }
        Err(refusal) => {
            drop(refusal);
            Ok(false)
        }
    }
}

/// The end of a loop's condition whose binds were followed, at whose head variables were below this one.
pub fn end_test(
    state: &mut FitState,
    regs: u32,
    code: &[Instr],
    mark: u64,
) -> Result<bool, AllocError>
    ensures over { IfOk result (λ over. (V : Views) (s : State) → Is regs state.old s → TestEnds regs V mark s code.now state.new over) }
    ensures grows { IfOk result (λ over. Grows state.old state.new) }
{
    let Some(left) = pass_all(state, regs, code)? else {
        return Ok(false);
    };
    if left.is_empty() {
        Ok(none_left(state, mark, &[]))
    } else {
        Ok(false)
    }
}
