//! Where a loop begins.

ghost use Rattle.std.specs.Prelude.{◌≡◌, ◌||◌, ◌&&◌, ◌++◌, ℕ, List, true, not, cond, None, Some, IfOk, MatchOption, OnOk};
ghost use Rattle.fit_blocks.specs.Answers.{At};
ghost use Rattle.fit_blocks.specs.Loops.{HeadOpens, LoopBegins, LoopFails, MovesIn, StartFails, StartsIn, inner_regs, starts_met};
ghost use Rattle.fit_state.specs.Infos.{infos_of};
ghost use Rattle.fit_state.specs.Rests.{ViewsAre};
ghost use Rattle.proof_lines.specs.Lines.{lines_of};
ghost use Rattle.fit_state.specs.States.{Grows, Is};
ghost use Rattle.fit_tokens.specs.Changes.{toks};
ghost use Rattle.fits.specs.Follow.{Views, all_below};
ghost use Rattle.fits.specs.Places as p;
ghost use Rattle.fits.specs.Places.{Info as InfoOf, State, in_order};
ghost use Rattle.fits.specs.Written.{is_one_of, loop_writes};
ghost use Rattle.ownership.specs.Entries.{shapes_of};

use crate::block::{Begun, from_here, open_block};
use crate::frame::Frame;
use crate::heads::{WhileHead, while_head, while_line};
use fit_state::{
    FitState, Info, Rest, all_below, all_words, arg_infos, bind_known, in_order, info_shapes,
    pass_all,
};
use fit_tokens::Tokens;
use loop_regs::{note_block, note_lines, note_written};
use nres_core::{Arg, FlatBind, FlatBlock, Place};
use ownership::{Shape, bind, looked_up};
use proof_text::ProofLine;
use rule_steps::start_loop;
use sqlite_items::Items;
use std::alloc::{AllocError, Global};

/// A loop of the specification.
#[derive(Clone, Copy)]
pub struct Starting<'a> {
    /// The place.
    pub place: Place,
    /// The starting values.
    pub starts: &'a [Arg],
    /// The variables that they begin as.
    pub vars: &'a [u32],
    /// The binds of its condition.
    pub cond: &'a [FlatBind],
    /// Its test.
    pub test: Arg,
    /// Its body.
    pub body: &'a FlatBlock,
}

/// A loop whose code was found.
#[derive(Clone, Copy)]
pub struct LoopCode<'a> {
    /// The registers of its variables.
    pub targets: &'a [u32],
    /// Its code, and the code behind it.
    pub head: WhileHead<'a>,
    /// The lines behind its own.
    pub lines: &'a [ProofLine],
}

/// A loop that is open.
#[derive(Drop)]
pub struct Loop<'a> {
    /// Its code.
    pub code: LoopCode<'a>,
    /// What there was before its variables.
    pub begun: Begun,
    /// What there was before its condition.
    pub inner: Begun,
    /// What its variables are in.
    pub shapes: Items<Shape>,
}

/// The code of a loop, up to its condition.
pub fn begin_loop<'a>(
    alloc: Global,
    frame: &Frame,
    state: &mut FitState,
    rest: Rest<'a>,
    starting: &Starting,
) -> Result<Option<Loop<'a>>, AllocError>
    ensures begins { IfOk result (λ begun. (V : Views) (s : State) → ViewsAre frame.now.views V → At frame.now.regs state.old s
        → MatchOption begun (LoopFails frame.now.regs V s starting.now rest.entry.code.now (lines_of rest.entry.lines.now))
        (λ looping. LoopBegins frame.now.regs V s starting.now rest.entry.code.now (lines_of rest.entry.lines.now) state.old state.new looping)) }
{
    let Some((targets, lines)) = while_line(rest.lines) else {
        return Ok(None);
    };
    let Some(infos) = arg_infos(alloc, state, starting.starts)? else {
        return Ok(None);
    };
    let Some(code) = pass_all(state, frame.regs, rest.code)? else {
        return Ok(None);
    };
    match while_head(code) {
        Some(head) => {
            let code = LoopCode {
                targets,
                head,
                lines,
            };
            start(alloc, frame, state, &code, starting, infos.as_slice())
        }
        None => Ok(None),
    }
}

/// The same from the loop's code on, where these are the starting values.
fn start<'a>(
    alloc: Global,
    frame: &Frame,
    state: &mut FitState,
    code: &LoopCode<'a>,
    starting: &Starting,
    infos: &[Info],
) -> Result<Option<Loop<'a>>, AllocError>
    ensures begins { IfOk result (λ begun. (V : Views) (u : State) → ViewsAre frame.now.views V → At frame.now.regs state.old u → p.arg_infos u.entries starting.now.starts.now ≡ Some (infos_of infos.now)
        → MatchOption begun (StartFails frame.now.regs V u starting.now code.now (infos_of infos.now)) (λ looping. (looping.code ≡ code.now) × StartsIn frame.now.regs V u starting.now (infos_of infos.now) state.old state.new looping)) }
{
    if !starts_met(alloc, frame.regs, state, code, starting, infos)? {
        return Ok(None);
    }
    if !move_in(alloc, frame, state, starting)? {
        return Ok(None);
    }
    forget_inside(alloc, &mut state.tokens, code, starting)?;
    let shapes = info_shapes(alloc, infos)?;
    let begun = from_here(state);
    match open_head(alloc, state, code.targets, starting.vars, shapes.as_slice()) {
        Ok(inner) => Ok(Some(Loop {
            code: *code,
            begun,
            inner,
            shapes,
        })),
        Err(error) => {
            drop(shapes);
            Err(error)
        }
    }
}

/// Whether the registers of a loop's variables have its starting values, and its variables come in order.
fn starts_met(
    alloc: Global,
    regs: u32,
    state: &FitState,
    code: &LoopCode,
    starting: &Starting,
    infos: &[Info],
) -> Result<bool, AllocError>
    ensures { IfOk result (λ met. (R : ℕ) (u : State) → Is R state.now u → met ≡ starts_met regs u code.now.targets.now starting.now.vars.now (infos_of infos.now)) }
{
    let words = all_words(alloc, infos)?;
    let shapes = info_shapes(alloc, infos)?;
    Ok(
        state.tokens.hold(code.targets, words.as_slice())
            && all_below(regs, code.targets)
            && in_order(state.next, starting.vars, shapes.as_slice()),
    )
}

/// The starting values move in, unless the rule check refuses it.
fn move_in(
    alloc: Global,
    frame: &Frame,
    state: &mut FitState,
    starting: &Starting,
) -> Result<bool, AllocError>
    ensures moved { IfOk result (λ moved. (V : Views) (u : State) → ViewsAre frame.now.views V → Is frame.now.regs state.old u → (infos : List InfoOf) → p.arg_infos u.entries starting.now.starts.now ≡ Some infos
        → MovesIn frame.now.regs V u starting.now infos state.new moved) }
    ensures grows { IfOk result (λ moved. moved ≡ true → Grows state.old state.new) }
{
    let starts = looked_up(alloc, &state.rules.context, starting.starts)?;
    state.rules.context.len();
    match start_loop(
        alloc,
        frame.views.names,
        &mut state.rules.context,
        starting.place,
        starts.as_slice(),
    )? {
        None => Ok(true),
        Some(refusal) => {
            drop(refusal);
            Ok(false)
        }
    }
}

/// Registers that are written in a loop, those of its lines, and those of its variables have no token.
fn forget_inside(
    alloc: Global,
    tokens: &mut Tokens,
    code: &LoopCode,
    starting: &Starting,
) -> Result<(), AllocError>
    ensures tokens { OnOk result ((r : ℕ) → toks tokens.new r ≡ cond (not (loop_writes code.now.head.cond.now code.now.head.body.now r || is_one_of r (inner_regs starting.now (lines_of code.now.lines.now))) && not (is_one_of r code.now.targets.now)) (toks tokens.old r) None) }
    ensures saved { tokens.new.saved ≡ tokens.old.saved }
{
    let mut noted = Items::new(alloc);
    note_written(code.head.cond, &mut noted)?;
    note_written(code.head.body, &mut noted)?;
    note_inside(&mut noted, code.lines, starting)?;
    tokens.forget(noted.as_slice())?;
    tokens.forget(code.targets)
}

fn note_inside(
    noted: &mut Items<u32>,
    lines: &[ProofLine],
    starting: &Starting,
) -> Result<(), AllocError>
    ensures { OnOk result (noted.new ≡ noted.old ++ inner_regs starting.now (lines_of lines.now)) }
{
    match note_lines(starting.cond, lines, noted)? {
        Some(left) => {
            note_block(starting.body, left, noted)?;
            Ok(())
        }
        None => Ok(()),
    }
}

/// Inside a loop containers from outside are kept, its variables are bound, and in its condition these are kept too.
fn open_head(
    alloc: Global,
    state: &mut FitState,
    targets: &[u32],
    vars: &[u32],
    shapes: &[Shape],
) -> Result<Begun, AllocError>
    ensures opened { IfOk result (λ inner. (R : ℕ) (v : State) → all_below R targets.now ≡ true → in_order v.next vars.now (shapes_of shapes.now) ≡ true → Is R state.old v → HeadOpens R v targets.now vars.now (shapes_of shapes.now) state.old state.new inner) }
{
    state.tokens.mark()?;
    state.rules.context.mark()?;
    state.rules.context.lend();
    bind(&mut state.rules.context, vars, shapes)?;
    bind_known(alloc, state, targets, vars, shapes)?;
    state.rules.context.len();
    let inner = open_block(state)?;
    state.rules.context.lend();
    Ok(inner)
}
