//! The side of an `either` that is taken.

ghost use Rattle.std.specs.Prelude.{◌≡◌, ◌++◌, ◌&&◌, ℕ, Bool, List, true, Some, IfOk, MatchOption, OnOk};
ghost use Rattle.fit_blocks.specs.Answers.{At};
ghost use Rattle.fit_blocks.specs.Blocks.{begun_at, block_opened};
ghost use Rattle.fit_blocks.specs.Eithers.{LeftSide, SideGoes, TakenAs};
ghost use Rattle.fit_laws.specs.Older.{Older};
ghost use Rattle.fit_state.specs.Infos.{infos_of};
ghost use Rattle.fit_state.specs.Rests.{ViewsAre};
ghost use Rattle.proof_lines.specs.Lines.{lines_of};
ghost use Rattle.fit_state.specs.States.{Grows, Is};
ghost use Rattle.fit_state.specs.declared.state.FitState.{FitState as FitStateOf};
ghost use Rattle.fits.specs.Follow.{Line, Answer, Unmet as UnmetAt, Views, on_side_line};
ghost use Rattle.fits.specs.Places as p;
ghost use Rattle.fits.specs.Places.{State};
ghost use Rattle.nres_core.specs.FlatTree.{flats_of};

use crate::block::{Begun, close_block};
use crate::ending::move_out;
use crate::frame::{Ends, Frame, Unmet};
use crate::heads::side_line;
use fit_state::{
    FitState, Info, Rest, all_vars, arg_infos, bind_words, in_order, info_shapes, info_words,
    pass_until_none_left,
};
use nres_core::FlatBlock;
use proof_text::ProofLine;
use std::alloc::{AllocError, Global};

/// Whether the left side of an `either` is taken, and not the right one, and the lines behind that.
pub fn taken_side<'a>(lines: &'a [ProofLine]) -> Option<(bool, &'a [ProofLine])>
    ensures { MatchOption result ((k : Bool → List Line → Answer) → on_side_line (lines_of lines.now) k ≡ UnmetAt (lines_of lines.now)) (λ found. (k : Bool → List Line → Answer) → on_side_line (lines_of lines.now) k ≡ k found.0 (lines_of found.1.now)) }
{
    side_line(lines)
}

/// Where the side of an `either` that is taken began, and the variables of the bind's results.
#[derive(Clone, Copy)]
pub struct Taken<'a> {
    /// Where it began.
    pub begun: Begun,
    /// The variables.
    pub outs: &'a [u32],
}

/// The end of the side of an `either` that is taken, whose binds were followed, and the bind's results.
pub fn end_side<'a>(
    alloc: Global,
    frame: &Frame,
    state: &mut FitState,
    rest: Rest<'a>,
    block: &FlatBlock,
    taken: &Taken,
) -> Result<Result<Rest<'a>, Unmet<'a>>, AllocError>
    ensures goes { IfOk result (λ over. (V : Views) (x : FitStateOf) (s s1 : State) → ViewsAre frame.now.views V → At frame.now.regs x s → taken.now.begun ≡ begun_at x → Grows (block_opened x) state.old → At frame.now.regs state.old s1 → Older s s1
        → SideGoes frame.now.regs V s taken.now.outs.now (flats_of block.now).ending s1 rest.entry.code.now (lines_of rest.entry.lines.now) state.new over) }
    ensures grows { IfOk result (λ over. IfOk over (λ rest. (x : FitStateOf) → taken.now.begun ≡ begun_at x → Grows (block_opened x) state.old → Grows x state.new)) }
{
    let Some(infos) = arg_infos(alloc, state, block.results.as_slice())? else {
        return Ok(Err(Unmet { lines: rest.lines }));
    };
    let vars = all_vars(alloc, infos.as_slice())?;
    let mark = taken.begun.next;
    let passed = pass_until_none_left(state, frame.regs, rest.code, mark, vars.as_slice())?;
    match passed {
        Some(code) => {
            if take_results(alloc, frame, state, block, infos.as_slice(), taken)? {
                Ok(Ok(Rest {
                    code,
                    lines: rest.lines,
                }))
            } else {
                Ok(Err(Unmet { lines: rest.lines }))
            }
        }
        None => Ok(Err(Unmet { lines: rest.lines })),
    }
}

/// The results of the side become variables of the same words, and what went in it is gone.
fn take_results(
    alloc: Global,
    frame: &Frame,
    state: &mut FitState,
    block: &FlatBlock,
    infos: &[Info],
    taken: &Taken,
) -> Result<bool, AllocError>
    ensures taken { IfOk result (λ met. (V : Views) (x : FitStateOf) (s u : State) (made : List p.Entry) → ViewsAre frame.now.views V → Is frame.now.regs x s → taken.now.begun ≡ begun_at x → Grows (block_opened x) state.old → Is frame.now.regs state.old u → u.entries ≡ made ++ s.entries → p.arg_infos u.entries (flats_of block.now).ending.results ≡ Some (infos_of infos.now)
        → TakenAs frame.now.regs V s u taken.now.outs.now (flats_of block.now).ending (infos_of infos.now) state.new met) }
    ensures grows { IfOk result (λ met. met ≡ true → (x : FitStateOf) → taken.now.begun ≡ begun_at x → Grows (block_opened x) state.old → Grows x state.new) }
{
    let begun = taken.begun;
    let outs = taken.outs;
    let shapes = info_shapes(alloc, infos)?;
    if !in_order(state.next, outs, shapes.as_slice()) {
        return Ok(false);
    }
    let ends = Ends {
        count: begun.count,
        mark: begun.next,
        owed: None,
        targets: &[],
    };
    if !move_out(alloc, frame, state, block, &ends)? {
        return Ok(false);
    }
    leave_side(alloc, state, begun)?;
    let words = info_words(alloc, infos)?;
    bind_words(alloc, state, outs, shapes.as_slice(), words.as_slice())?;
    Ok(true)
}

/// The entries are those from before the side, without what went in it.
fn leave_side(alloc: Global, state: &mut FitState, begun: Begun) -> Result<(), AllocError>
    ensures { OnOk result (LeftSide begun state.old state.new) }
{
    let went = state.rules.context.went(alloc)?;
    close_block(state, begun);
    state.rules.context.fall(went.as_slice())
}
