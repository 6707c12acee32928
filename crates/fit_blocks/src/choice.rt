//! Where the two sides of an `if` begin, and where they meet.

ghost use Rattle.std.specs.Prelude.{◌≡◌, ℕ, true, length, IfOk, MatchOption, OnOk};
ghost use Rattle.context_laws.specs.Steps.{FallsBack};
ghost use Rattle.fit_blocks.specs.Answers.{At};
ghost use Rattle.fit_blocks.specs.Blocks.{side_closed};
ghost use Rattle.fit_blocks.specs.Choices.{IfBegins, IfFails, Joins, Leaves, MeetsAs, forgetting, knowing};
ghost use Rattle.proof_lines.specs.Lines.{lines_of};
ghost use Rattle.fit_state.specs.States.{Grows, Is};
ghost use Rattle.fits.specs.Follow.{Views};
ghost use Rattle.fit_tokens.specs.Changes.{after, changes_of, toks};
ghost use Rattle.fits.specs.Places.{State, both_tokens};
ghost use Rattle.ownership.specs.Entries.{shapes_of};
ghost use Rattle.rule_check.specs.Facts.{defs_behind, learnt};
ghost use Rattle.rule_steps.specs.States.{ctx_of};

use crate::block::{Begun, Closed, close_side};
use crate::frame::{Over, Unmet};
use crate::heads::{if_head, if_line};
use crate::same::fall_alike;
use fit_state::{FitState, Rest, arg_info, bind_at, in_order, pass_all, same_shapes};
use fit_tokens::{Change, Tokens};
use nres_core::{Arg, Place};
use std::alloc::{AllocError, Global};
use target_code::Instr;

/// An `if` whose code was found.
#[derive(Clone, Copy)]
pub struct Choice<'a> {
    /// The registers of its results.
    pub targets: &'a [u32],
    /// The code where its test holds.
    pub yes: &'a [Instr],
    /// The code where it does not.
    pub no: &'a [Instr],
    /// What is behind it in the code, and the lines behind its own.
    pub after: Rest<'a>,
}

/// A side that was followed, and what it did outside.
#[derive(Drop)]
pub struct Side<'a> {
    /// The lines behind it, and its results.
    pub over: Over<'a>,
    /// What it did outside.
    pub closed: Closed,
    /// The variables so far are below this.
    pub next: u64,
}

/// The code of an `if`, up to its first side.
pub fn begin_if<'a>(
    alloc: Global,
    regs: u32,
    state: &mut FitState,
    rest: Rest<'a>,
    test: Arg,
) -> Result<Option<Choice<'a>>, AllocError>
    ensures begins { IfOk result (λ begun. (V : Views) (s : State) → Is regs state.old s
        → MatchOption begun (IfFails regs V s test rest.entry.code.now (lines_of rest.entry.lines.now)) (λ choice. IfBegins regs V s test rest.entry.code.now (lines_of rest.entry.lines.now) state.new choice)) }
    ensures grows { IfOk result (λ begun. Grows state.old state.new) }
{
    let Some((targets, lines)) = if_line(rest.lines) else {
        return Ok(None);
    };
    let Some(info) = arg_info(alloc, state, test)? else {
        return Ok(None);
    };
    let Some(code) = pass_all(state, regs, rest.code)? else {
        return Ok(None);
    };
    match if_head(code) {
        Some(head) if state.tokens.hold(&[head.test], info.words.as_slice()) => Ok(Some(Choice {
            targets,
            yes: head.yes.list.as_slice(),
            no: head.no.list.as_slice(),
            after: Rest {
                code: head.rest,
                lines,
            },
        })),
        _ => Ok(None),
    }
}

/// What is known where the test of an `if` holds is known besides. Gives how many facts there were.
pub fn learn(
    alloc: Global,
    state: &mut FitState,
    place: Place,
    test: Arg,
) -> Result<usize, AllocError>
    ensures state { OnOk result (state.new ≡ knowing (learnt (defs_behind place (ctx_of state.old.rules).defs) test) state.old) }
    ensures count { IfOk result (λ mark. mark ≡ length state.old.rules.facts) }
{
    let mark = state.rules.facts.len();
    state.rules.calculations.learn_if(
        alloc,
        state.rules.start,
        place,
        test,
        &mut state.rules.facts,
    )?;
    Ok(mark)
}

/// Facts are forgotten but so many.
pub fn forget_facts(state: &mut FitState, mark: usize)
    ensures { state.new ≡ forgetting mark state.old }
{
    state.rules.facts.leave(mark);
}

/// An `if` whose code was found, and the variables of its results.
#[derive(Clone, Copy)]
pub struct Joint<'a> {
    /// The `if`.
    pub choice: Choice<'a>,
    /// The variables.
    pub outs: &'a [u32],
}

/// The sides meet: they have results in the same shapes, the same entries went in both, and registers keep the tokens that both leave.
pub fn meet_sides<'a>(
    alloc: Global,
    regs: u32,
    state: &mut FitState,
    joint: &Joint<'a>,
    left: &Side,
    right: &Side<'a>,
) -> Result<Result<Rest<'a>, Unmet<'a>>, AllocError>
    ensures met { IfOk result (λ met. (u s1 s2 : State) → At regs state.old u → u.branch ≡ s2.branch → Leaves regs state.old u s1 joint.now.choice.targets.now left.now → Leaves regs state.old u s2 joint.now.choice.targets.now right.now
        → MeetsAs regs u s1 s2 joint.now left.now right.now state.new met) }
    ensures grows { IfOk result (λ met. IfOk met (λ rest. Grows state.old state.new)) }
{
    if join(alloc, regs, state, joint, left, right)? {
        Ok(Ok(Rest {
            code: joint.choice.after.code,
            lines: right.over.lines,
        }))
    } else {
        Ok(Err(Unmet {
            lines: right.over.lines,
        }))
    }
}

fn join(
    alloc: Global,
    regs: u32,
    state: &mut FitState,
    joint: &Joint,
    left: &Side,
    right: &Side,
) -> Result<bool, AllocError>
    ensures met { IfOk result (λ met. (u s1 s2 : State) → At regs state.old u → u.branch ≡ s2.branch → Leaves regs state.old u s1 joint.now.choice.targets.now left.now → Leaves regs state.old u s2 joint.now.choice.targets.now right.now
        → Joins regs u s1 s2 joint.now.choice.targets.now joint.now.outs.now (shapes_of left.now.over.shapes) (shapes_of right.now.over.shapes) state.new met) }
    ensures grows { IfOk result (λ met. met ≡ true → Grows state.old state.new) }
{
    let shapes = left.over.shapes.as_slice();
    let next = state.next.max(left.next.max(right.next));
    if !same_shapes(right.over.shapes.as_slice(), shapes) || !in_order(next, joint.outs, shapes) {
        return Ok(false);
    }
    let went = right.closed.went.as_slice();
    if !fall_alike(&mut state.rules.context, left.closed.went.as_slice(), went)? {
        return Ok(false);
    }
    let changes = right.closed.changes.as_slice();
    meet_tokens(
        alloc,
        &mut state.tokens,
        left.closed.changes.as_slice(),
        changes,
    )?;
    state.next = next;
    bind_at(alloc, state, joint.choice.targets, joint.outs, shapes)?;
    Ok(true)
}

/// Registers keep the tokens that both of these leave.
fn meet_tokens(
    alloc: Global,
    tokens: &mut Tokens,
    left: &[Change],
    right: &[Change],
) -> Result<(), AllocError>
    ensures tokens { OnOk result ((r : ℕ) → toks tokens.new r ≡ both_tokens (after (changes_of left.now) (toks tokens.old) r) (after (changes_of right.now) (toks tokens.old) r)) }
    ensures saved { OnOk result (tokens.new.saved ≡ tokens.old.saved) }
{
    tokens.mark()?;
    tokens.put_all(right)?;
    tokens.meet(alloc, left)
}

/// A side is over: what it did outside.
pub fn leave_side<'a>(
    alloc: Global,
    state: &mut FitState,
    begun: Begun,
    over: Over<'a>,
) -> Result<Side<'a>, AllocError>
    ensures left { IfOk result (λ side. (side.over ≡ over.entry) × (side.next ≡ state.old.next) × (state.new ≡ side_closed begun state.old) × FallsBack side.closed.went state.old.rules.context × (changes_of side.closed.changes ≡ state.old.tokens.changes)) }
{
    let next = state.next;
    match close_side(alloc, state, begun) {
        Ok(closed) => Ok(Side { over, closed, next }),
        Err(error) => {
            drop(over);
            Err(error)
        }
    }
}
