//! Binds and blocks are followed.

ghost use Rattle.std.specs.Prelude.{◌≡◌, ℕ, List, [], true, length, IfOk};
ghost use Rattle.fit_blocks.specs.Answers.{AnswerIs, At, BindIs, IsOpen, OverIs, Results};
ghost use Rattle.fit_blocks.specs.Choices.{Leaves};
ghost use Rattle.fit_blocks.specs.Loops.{Headed_at, OpenLoop, test_opened, turn_body};
ghost use Rattle.fit_blocks.specs.declared.looping.Starting.{Starting as StartingOf};
ghost use Rattle.fit_state.specs.Rests.{ViewsAre};
ghost use Rattle.proof_lines.specs.Lines.{lines_of};
ghost use Rattle.fit_state.specs.States.{Grows};
ghost use Rattle.sequential.specs.Sequential.{sequential};
ghost use Rattle.fit_walk.specs.Walks.{HeadWalked, SideWalked, StepIs, other_side};
ghost use Rattle.fits.specs.Follow.{Views, block as block_of, fit, side_step};
ghost use Rattle.fits.specs.Places.{Info, State, begun_state, with_branch};
ghost use Rattle.nres_core.specs.FlatTree.{Ending, No_bind, before_of, binds_of, flats_of};
ghost use Rattle.ownership.specs.Entries.{shapes_of};
ghost use Rattle.rule_check.specs.Facts.{defs_behind, learnt};
ghost use Rattle.rule_check.specs.Steps.{no_list};
ghost use Rattle.rule_steps.specs.Ends.{astray_of};

use crate::plain::walk_plain;
use fit_blocks::{
    Choice, Ends, Frame, Headed, Joint, Loop, Over, Side, Starting, Taken, Unmet, begin_if,
    begin_loop, end_head, end_loop, end_side, finish_block, forget_facts, learn, leave_side,
    meet_sides, open_block, open_side, taken_side,
};
use fit_state::{FitState, Rest};
use nres_core::{Arg, FlatBind, FlatBlock, Place};
use std::alloc::{AllocError, Global};

/// The binds in order, up to the first line that is not found.
#[cycle(walk)]
pub(crate) fn walk_binds<'a>(
    binds: &'a [FlatBind],
    alloc: Global,
    frame: &Frame<'a>,
    state: &mut FitState,
    rest: Rest<'a>,
) -> Result<Result<Rest<'a>, Unmet<'a>>, AllocError>
    ensures { IfOk result (λ over. (V : Views) (s : State) → ViewsAre frame.now.views V → sequential (binds_of binds.now) ≡ true → At frame.now.regs state.old s → IsOpen state.old
        → AnswerIs frame.now.regs state.new over (fit frame.now.regs V (binds_of binds.now) s rest.entry.code.now (lines_of rest.entry.lines.now)) × IfOk over (λ rest. Grows state.old state.new)) }
{
    let mut left = rest;
    'each: for bind in binds {
        match walk_bind(bind, alloc, frame, state, left)? {
            Ok(rest) => left = rest,
            Err(unmet) => return Ok(Err(unmet)),
        }
    }
    Ok(Ok(left))
}

/// A bind.
#[cycle(walk)]
fn walk_bind<'a>(
    bind: &'a FlatBind,
    alloc: Global,
    frame: &Frame<'a>,
    state: &mut FitState,
    rest: Rest<'a>,
) -> Result<Result<Rest<'a>, Unmet<'a>>, AllocError>
    ensures { IfOk result (λ over. (V : Views) (s : State) → ViewsAre frame.now.views V → sequential (before_of bind.now No_bind) ≡ true → At frame.now.regs state.old s → IsOpen state.old
        → BindIs frame.now.regs V (before_of bind.now) s rest.entry.code.now (lines_of rest.entry.lines.now) state.new over × IfOk over (λ rest. Grows state.old state.new)) }
{
    match bind {
        FlatBind::If {
            place,
            outs,
            test,
            yes,
            no,
        } => {
            let Some(choice) = begin_if(alloc, frame.regs, state, rest, *test)? else {
                return Ok(Err(Unmet { lines: rest.lines }));
            };
            match walk_yes(yes, alloc, frame, state, &choice, (*place, *test))? {
                Ok(side) => {
                    let joint = Joint {
                        choice,
                        outs: outs.as_slice(),
                    };
                    walk_no(no, alloc, frame, state, &joint, &side)
                }
                Err(unmet) => Ok(Err(unmet)),
            }
        }
        FlatBind::While {
            place,
            outs,
            vars,
            starts,
            cond,
            test,
            body,
        } => {
            let starting = Starting {
                place: *place,
                starts: starts.as_slice(),
                vars: vars.as_slice(),
                cond: cond.as_slice(),
                test: *test,
                body,
            };
            let Some(looping) = begin_loop(alloc, frame, state, rest, &starting)? else {
                return Ok(Err(Unmet { lines: rest.lines }));
            };
            match walk_head(cond.as_slice(), alloc, frame, state, &looping, &starting)? {
                Ok(headed) => walk_turn(
                    body,
                    alloc,
                    frame,
                    state,
                    &looping,
                    (&headed, outs.as_slice()),
                ),
                Err(unmet) => Ok(Err(unmet)),
            }
        }
        FlatBind::Par { .. } => Ok(Err(Unmet { lines: rest.lines })),
        FlatBind::Split { .. } => Ok(Err(Unmet { lines: rest.lines })),
        FlatBind::Either {
            outs,
            left,
            right,
            ..
        } => match taken_side(rest.lines) {
            Some((true, lines)) => {
                let rest = Rest {
                    code: rest.code,
                    lines,
                };
                walk_taken(left, alloc, frame, state, rest, outs.as_slice())
            }
            Some((false, lines)) => {
                let rest = Rest {
                    code: rest.code,
                    lines,
                };
                walk_taken(right, alloc, frame, state, rest, outs.as_slice())
            }
            None => Ok(Err(Unmet { lines: rest.lines })),
        },
        _ => walk_plain(alloc, frame, state, rest, bind),
    }
}

/// A block, up to its end.
#[cycle(walk)]
fn walk_block<'a>(
    block: &'a FlatBlock,
    alloc: Global,
    frame: &Frame<'a>,
    state: &mut FitState,
    rest: Rest<'a>,
    ends: &Ends,
) -> Result<Result<Over<'a>, Unmet<'a>>, AllocError>
    ensures { IfOk result (λ over. (V : Views) (s : State) → ViewsAre frame.now.views V → sequential (flats_of block.now).binds ≡ true → At frame.now.regs state.old s → IsOpen state.old
        → OverIs frame.now.regs state.new (flats_of block.now).ending ends.now.targets.now over
        (block_of frame.now.regs V (fit frame.now.regs V (flats_of block.now).binds) ends.now.count ends.now.mark (astray_of ends.now.owed) (flats_of block.now).ending ends.now.targets.now s rest.entry.code.now (lines_of rest.entry.lines.now)) × IfOk over (λ o. Grows state.old state.new)) }
{
    match walk_binds(block.binds.as_slice(), alloc, frame, state, rest)? {
        Ok(rest) => finish_block(alloc, frame, state, rest, block, ends),
        Err(unmet) => Ok(Err(unmet)),
    }
}

/// A block that is one of the two sides of an `if`. All but the number of branches is left as it was.
#[cycle(walk)]
fn walk_side<'a>(
    block: &'a FlatBlock,
    alloc: Global,
    frame: &Frame<'a>,
    state: &mut FitState,
    rest: Rest<'a>,
    targets: &[u32],
) -> Result<Result<Side<'a>, Unmet<'a>>, AllocError>
    ensures { IfOk result (λ side. (V : Views) (u : State) → ViewsAre frame.now.views V → sequential (flats_of block.now).binds ≡ true → At frame.now.regs state.old u
        → SideWalked frame.now.regs state.old state.new u (flats_of block.now).ending targets.now side
        (block_of frame.now.regs V (fit frame.now.regs V (flats_of block.now).binds) (length u.entries) u.next no_list (flats_of block.now).ending targets.now (begun_state u []) rest.entry.code.now (lines_of rest.entry.lines.now)) × IfOk side (λ o. Grows state.old state.new)) }
{
    let begun = open_side(state)?;
    let ends = Ends {
        count: begun.count,
        mark: begun.next,
        owed: None,
        targets,
    };
    match walk_block(block, alloc, frame, state, rest, &ends)? {
        Ok(over) => Ok(Ok(leave_side(alloc, state, begun, over)?)),
        Err(unmet) => Ok(Err(unmet)),
    }
}

/// The first side of an `if`, in which its test holds.
#[cycle(walk)]
fn walk_yes<'a>(
    block: &'a FlatBlock,
    alloc: Global,
    frame: &Frame<'a>,
    state: &mut FitState,
    choice: &Choice<'a>,
    test: (Place, Arg),
) -> Result<Result<Side<'a>, Unmet<'a>>, AllocError>
    ensures { IfOk result (λ side. (V : Views) (u : State) → ViewsAre frame.now.views V → sequential (flats_of block.now).binds ≡ true → At frame.now.regs state.old u
        → SideWalked frame.now.regs state.old state.new u (flats_of block.now).ending choice.now.targets.now side
        (block_of frame.now.regs V (fit frame.now.regs V (flats_of block.now).binds) (length u.entries) u.next no_list (flats_of block.now).ending choice.now.targets.now (begun_state u (learnt (defs_behind test.0 u.defs) test.1)) choice.now.yes.now (lines_of choice.now.after.lines.now)) × IfOk side (λ o. Grows state.old state.new)) }
{
    let mark = learn(alloc, state, test.0, test.1)?;
    let rest = Rest {
        code: choice.yes,
        lines: choice.after.lines,
    };
    match walk_side(block, alloc, frame, state, rest, choice.targets)? {
        Ok(side) => {
            forget_facts(state, mark);
            Ok(Ok(side))
        }
        Err(unmet) => Ok(Err(unmet)),
    }
}

/// The second side of an `if`, behind the first one, and the bind's results.
#[cycle(walk)]
fn walk_no<'a>(
    block: &'a FlatBlock,
    alloc: Global,
    frame: &Frame<'a>,
    state: &mut FitState,
    joint: &Joint<'a>,
    left: &Side<'a>,
) -> Result<Result<Rest<'a>, Unmet<'a>>, AllocError>
    ensures { IfOk result (λ over. (V : Views) (u s1 : State) (le : Ending) → ViewsAre frame.now.views V → sequential (flats_of block.now).binds ≡ true → At frame.now.regs state.old (with_branch u s1.branch) → Leaves frame.now.regs state.old u s1 joint.now.choice.targets.now left.now → Results s1 le (shapes_of left.now.over.shapes)
        → StepIs frame.now.regs state.new over (other_side frame.now.regs V u s1 joint.now left.now le (flats_of block.now)) × IfOk over (λ rest. Grows state.old state.new)) }
{
    let rest = Rest {
        code: joint.choice.no,
        lines: left.over.lines,
    };
    match walk_side(block, alloc, frame, state, rest, joint.choice.targets)? {
        Ok(right) => meet_sides(alloc, frame.regs, state, joint, left, &right),
        Err(unmet) => Ok(Err(unmet)),
    }
}

/// The side of an `either` that is taken, and the bind's results.
#[cycle(walk)]
fn walk_taken<'a>(
    block: &'a FlatBlock,
    alloc: Global,
    frame: &Frame<'a>,
    state: &mut FitState,
    rest: Rest<'a>,
    outs: &[u32],
) -> Result<Result<Rest<'a>, Unmet<'a>>, AllocError>
    ensures { IfOk result (λ over. (V : Views) (s : State) → ViewsAre frame.now.views V → sequential (flats_of block.now).binds ≡ true → At frame.now.regs state.old s
        → StepIs frame.now.regs state.new over (side_step frame.now.regs V s rest.entry.code.now (lines_of rest.entry.lines.now) outs.now (fit frame.now.regs V (flats_of block.now).binds) (flats_of block.now).ending) × IfOk over (λ rest. Grows state.old state.new)) }
{
    let begun = open_block(state)?;
    match walk_binds(block.binds.as_slice(), alloc, frame, state, rest)? {
        Ok(rest) => {
            let taken = Taken { begun, outs };
            end_side(alloc, frame, state, rest, block, &taken)
        }
        Err(unmet) => Ok(Err(unmet)),
    }
}

/// The condition of a loop that is open.
#[cycle(walk)]
fn walk_head<'a>(
    binds: &'a [FlatBind],
    alloc: Global,
    frame: &Frame<'a>,
    state: &mut FitState,
    looping: &Loop<'a>,
    starting: &Starting,
) -> Result<Result<Headed<'a>, Unmet<'a>>, AllocError>
    ensures { IfOk result (λ over. (V : Views) (u : State) (infos : List Info) (q : OpenLoop frame.now.regs V u infos starting.now looping.now) → ViewsAre frame.now.views V → sequential (binds_of binds.now) ≡ true → state.old ≡ test_opened q.head
        → HeadWalked frame.now.regs V u infos starting.now looping.now q.head state.new over (fit frame.now.regs V (binds_of binds.now))) }
{
    let rest = Rest {
        code: looping.code.head.cond.list.as_slice(),
        lines: looping.code.lines,
    };
    match walk_binds(binds, alloc, frame, state, rest)? {
        Ok(rest) => end_head(alloc, frame.regs, state, rest, looping, starting),
        Err(unmet) => Ok(Err(unmet)),
    }
}

/// The body of a loop behind its condition, and the loop's results.
#[cycle(walk)]
fn walk_turn<'a>(
    block: &'a FlatBlock,
    alloc: Global,
    frame: &Frame<'a>,
    state: &mut FitState,
    looping: &Loop<'a>,
    turned: (&Headed<'a>, &[u32]),
) -> Result<Result<Rest<'a>, Unmet<'a>>, AllocError>
    ensures { IfOk result (λ over. (V : Views) (u last : State) (infos : List Info) (st : StartingOf) (q : OpenLoop frame.now.regs V u infos st looping.now) → ViewsAre frame.now.views V → sequential (flats_of block.now).binds ≡ true → Headed_at frame.now.regs V u infos st looping.now q.head state.old turned.entry.0.now last → flats_of block.now ≡ flats_of st.body.now
        → StepIs frame.now.regs state.new over (λ go. turn_body frame.now.regs V u infos st looping.now.code turned.entry.1.now (fit frame.now.regs V (flats_of block.now).binds) go last (lines_of turned.entry.0.now.lines.now)) × IfOk over (λ rest. Grows q.outer state.new)) }
{
    let rest = Rest {
        code: looping.code.head.body.list.as_slice(),
        lines: turned.0.lines,
    };
    let ends = Ends {
        count: looping.begun.count,
        mark: looping.begun.next,
        owed: None,
        targets: looping.code.targets,
    };
    match walk_block(block, alloc, frame, state, rest, &ends)? {
        Ok(over) => end_loop(alloc, frame.regs, state, &over, looping, turned),
        Err(unmet) => Ok(Err(unmet)),
    }
}
