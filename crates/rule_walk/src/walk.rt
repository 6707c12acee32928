//! The walk over binds.

ghost use Rattle.std.specs.Prelude.{◌≡◌, [], IfOk};
ghost use Rattle.nres_core.specs.FlatTree.{before_of, binds_of, flats_of};
ghost use Rattle.rule_check.specs.Check.{check};
ghost use Rattle.rule_check.specs.Facts.{defs_behind, learnt};
ghost use Rattle.rule_steps.specs.Operations.{outcome};
ghost use Rattle.rule_steps.specs.States.{Grows, ctx_of};
ghost use Rattle.rule_walk.specs.Branches.{BranchWalked, LeftWalked, RightWalked};
ghost use Rattle.rule_walk.specs.Choices.{OtherJoined};
ghost use Rattle.rule_walk.specs.Sides.{OtherWalked, SideIs};
ghost use Rattle.rule_walk.specs.Turns.{HeadWalked, TurnWalked};
ghost use Rattle.rule_walk.specs.Walks.{IsOpen, Walked, book_in};

use crate::book::Book;
use crate::calling::{Calling, call};
use crate::choice::{Joint, join_sides, learn};
use crate::loops::{Condition, Loop, Starting, Turn, begin_list, begin_loop, end_head, end_loop};
use crate::plain::{walk_any, walk_apply, walk_assert, walk_calc};
use crate::sides::{close_side, end_side, open_side, take_side};
use branch_merge::Side;
use facts::Calculation;
use nres_core::{Arg, FlatBind, FlatBlock, Place, Refusal};
use rule_forks::{
    Branch, Fork, Splitting, close_fork, end_branch, enter_branch, forked, leave_branch, open_par,
    open_split,
};
use rule_steps::{Operation, State};
use std::alloc::{AllocError, Global};

/// The binds in order, up to the first refusal.
#[cycle(walk)]
pub(crate) fn walk_binds(
    binds: &[FlatBind],
    alloc: Global,
    book: &Book,
    state: &mut State,
) -> Result<Option<Refusal>, AllocError>
    requires { IsOpen state.old }
    ensures walked { IfOk result (λ refused. check (book_in book.now) (binds_of binds.now) (ctx_of state.old) ≡ outcome refused (ctx_of state.new)) }
    ensures grows { IfOk result (λ refused. Grows state.old state.new) }
{
    'each: for bind in binds {
        match walk_bind(bind, alloc, book, state)? {
            None => {}
            Some(refusal) => return Ok(Some(refusal)),
        }
    }
    Ok(None)
}

/// A bind.
#[cycle(walk)]
fn walk_bind(
    bind: &FlatBind,
    alloc: Global,
    book: &Book,
    state: &mut State,
) -> Result<Option<Refusal>, AllocError>
    requires { IsOpen state.old }
    ensures walked { IfOk result (λ refused. Walked (book_in book.now) (before_of bind.now) state.old state.new refused) }
    ensures grows { IfOk result (λ refused. Grows state.old state.new) }
{
    match bind {
        FlatBind::Calc {
            place,
            out,
            word,
            left,
            right,
        } => {
            let calculation = Calculation {
                place: *place,
                to: *out,
                word: *word,
                left: *left,
                right: *right,
            };
            walk_calc(book, state, calculation)
        }
        FlatBind::Apply {
            place,
            outs,
            op,
            made,
            args,
        } => {
            let operation = Operation {
                place: *place,
                op: *op,
                made: *made,
                args: args.as_slice(),
                outs: outs.as_slice(),
            };
            walk_apply(alloc, book, state, &operation)
        }
        FlatBind::Assert { inner, test, .. } => {
            walk_assert(alloc, book, state, inner.as_slice(), *test)
        }
        FlatBind::Any { out, high, .. } => walk_any(book, state, *out, *high),
        FlatBind::Call {
            place,
            outs,
            fun,
            args,
        } => {
            let calling = Calling {
                place: *place,
                outs: outs.as_slice(),
                fun: *fun,
                args: args.as_slice(),
            };
            call(alloc, book, state, &calling)
        }
        FlatBind::If {
            place,
            outs,
            test,
            yes,
            no,
        } => match walk_yes(yes, alloc, book, state, *place, *test)? {
            Ok(side) => {
                let joint = Joint {
                    place: *place,
                    outs: outs.as_slice(),
                    left: &side,
                };
                walk_no(no, alloc, book, state, &joint)
            }
            Err(refusal) => Ok(Some(refusal)),
        },
        FlatBind::While {
            place,
            outs,
            vars,
            starts,
            cond,
            test,
            body,
        } => {
            let starting = Starting {
                place: *place,
                starts: starts.as_slice(),
                vars: vars.as_slice(),
            };
            let looping = begin_loop(alloc, book, state, &starting)?;
            let looping = walk_head(cond.as_slice(), alloc, book, state, looping, *test)?;
            walk_turn(body, alloc, book, state, looping, outs.as_slice())
        }
        FlatBind::Par {
            place,
            outs,
            left,
            right,
        } => {
            let opened = open_par(alloc, book.names, &state.context, *place, left, right)?;
            let opened = walk_left(left, alloc, book, state, opened)?;
            let opened = walk_right(right, alloc, book, state, opened)?;
            close_fork(alloc, &mut state.context, outs.as_slice(), opened)
        }
        FlatBind::Split {
            place,
            outs,
            list,
            left_var,
            left,
            right_var,
            right,
            ..
        } => {
            let splitting = Splitting {
                place: *place,
                list: *list,
                left_slice: *left_var,
                right_slice: *right_var,
            };
            let opened = open_split(
                alloc,
                book.names,
                &mut state.context,
                &splitting,
                left,
                right,
            )?;
            let opened = walk_left(left, alloc, book, state, opened)?;
            let opened = walk_right(right, alloc, book, state, opened)?;
            close_fork(alloc, &mut state.context, outs.as_slice(), opened)
        }
        FlatBind::Either {
            outs,
            left,
            right,
            ..
        } => match walk_side(left, alloc, book, state)? {
            Ok(side) => {
                take_side(alloc, state, outs.as_slice(), &side)?;
                Ok(None)
            }
            Err(refusal) => {
                drop(refusal);
                walk_other(right, alloc, book, state, outs.as_slice())
            }
        },
    }
}

/// A block that is one of two sides. All is left as it was.
#[cycle(walk)]
fn walk_side(
    block: &FlatBlock,
    alloc: Global,
    book: &Book,
    state: &mut State,
) -> Result<Result<Side, Refusal>, AllocError>
    ensures side { IfOk result (λ side. SideIs (book_in book.now) [] (ctx_of state.old) (flats_of block.now) side) }
    ensures same { IfOk result (λ side. state.new ≡ state.old) }
{
    let begun = open_side(state)?;
    match walk_binds(block.binds.as_slice(), alloc, book, state)? {
        Some(refusal) => {
            close_side(state, begun);
            Ok(Err(refusal))
        }
        None => end_side(alloc, book, state, begun, block),
    }
}

/// The second side of `either`, where the first one is refused.
#[cycle(walk)]
fn walk_other(
    block: &FlatBlock,
    alloc: Global,
    book: &Book,
    state: &mut State,
    outs: &[u32],
) -> Result<Option<Refusal>, AllocError>
    ensures walked { IfOk result (λ refused. OtherWalked (book_in book.now) (flats_of block.now) outs.now state.old state.new refused) }
    ensures grows { IfOk result (λ refused. Grows state.old state.new) }
{
    match walk_side(block, alloc, book, state)? {
        Ok(side) => {
            take_side(alloc, state, outs, &side)?;
            Ok(None)
        }
        Err(refusal) => Ok(Some(refusal)),
    }
}

/// The first side of `if`, in which its test holds. All is left as it was.
#[cycle(walk)]
fn walk_yes(
    block: &FlatBlock,
    alloc: Global,
    book: &Book,
    state: &mut State,
    place: Place,
    test: Arg,
) -> Result<Result<Side, Refusal>, AllocError>
    ensures side { IfOk result (λ side. SideIs (book_in book.now) (learnt (defs_behind place (ctx_of state.old).defs) test) (ctx_of state.old) (flats_of block.now) side) }
    ensures same { IfOk result (λ side. state.new ≡ state.old) }
{
    let mark = learn(alloc, state, place, test)?;
    let side = walk_side(block, alloc, book, state)?;
    state.facts.leave(mark);
    Ok(side)
}

/// The second side of `if`, where the first one passed, and the bind's results.
#[cycle(walk)]
fn walk_no(
    block: &FlatBlock,
    alloc: Global,
    book: &Book,
    state: &mut State,
    joint: &Joint,
) -> Result<Option<Refusal>, AllocError>
    ensures joined { IfOk result (λ refused. OtherJoined (book_in book.now) joint.now.place joint.now.outs.now joint.now.left.now (flats_of block.now) state.old state.new refused) }
    ensures grows { IfOk result (λ refused. Grows state.old state.new) }
{
    match walk_side(block, alloc, book, state)? {
        Ok(side) => join_sides(alloc, book, state, joint, &side),
        Err(refusal) => Ok(Some(refusal)),
    }
}

/// The condition of a loop that began, if it did.
#[cycle(walk)]
fn walk_head(
    binds: &[FlatBind],
    alloc: Global,
    book: &Book,
    state: &mut State,
    looping: Result<Loop, Refusal>,
    test: Arg,
) -> Result<Result<Loop, Refusal>, AllocError>
    ensures { IfOk result (λ headed. HeadWalked (book_in book.now) (binds_of binds.now) test looping state.old headed state.new) }
{
    match looping {
        Ok(looping) => {
            begin_list(state);
            let said = walk_binds(binds, alloc, book, state);
            let condition = Condition { binds, test };
            end_head(alloc, state, looping, said, &condition)
        }
        Err(refusal) => Ok(Err(refusal)),
    }
}

/// The body of a loop whose condition passed, if it did, and the loop's results.
#[cycle(walk)]
fn walk_turn(
    block: &FlatBlock,
    alloc: Global,
    book: &Book,
    state: &mut State,
    looping: Result<Loop, Refusal>,
    outs: &[u32],
) -> Result<Option<Refusal>, AllocError>
    ensures { IfOk result (λ refused. TurnWalked (book_in book.now) (flats_of block.now) outs.now looping state.old refused state.new) }
{
    match looping {
        Ok(looping) => {
            begin_list(state);
            let said = walk_binds(block.binds.as_slice(), alloc, book, state);
            let turn = Turn { block, outs };
            end_loop(alloc, book, state, looping, said, &turn)
        }
        Err(refusal) => Ok(Some(refusal)),
    }
}

/// The left branch of a fork that is opened, if it is.
#[cycle(walk)]
fn walk_left(
    block: &FlatBlock,
    alloc: Global,
    book: &Book,
    state: &mut State,
    opened: Result<Fork, Refusal>,
) -> Result<Result<Fork, Refusal>, AllocError>
    ensures walked { IfOk result (λ over. LeftWalked (book_in book.now) (flats_of block.now) state.old opened over) }
    ensures same { IfOk result (λ over. state.new ≡ state.old) }
{
    match opened {
        Ok(fork) => {
            let mut fork = fork;
            let said = walk_branch(block, alloc, book, state, &mut fork.left);
            forked(fork, said)
        }
        Err(refusal) => Ok(Err(refusal)),
    }
}

/// The right branch of a fork whose left one passed, if it did.
#[cycle(walk)]
fn walk_right(
    block: &FlatBlock,
    alloc: Global,
    book: &Book,
    state: &mut State,
    opened: Result<Fork, Refusal>,
) -> Result<Result<Fork, Refusal>, AllocError>
    ensures walked { IfOk result (λ over. RightWalked (book_in book.now) (flats_of block.now) state.old opened over) }
    ensures same { IfOk result (λ over. state.new ≡ state.old) }
{
    match opened {
        Ok(fork) => {
            let mut fork = fork;
            let said = walk_branch(block, alloc, book, state, &mut fork.right);
            forked(fork, said)
        }
        Err(refusal) => Ok(Err(refusal)),
    }
}

/// A branch, with its own entries. All outside is left as it was.
#[cycle(walk)]
fn walk_branch(
    block: &FlatBlock,
    alloc: Global,
    book: &Book,
    state: &mut State,
    branch: &mut Branch,
) -> Result<Option<Refusal>, AllocError>
    ensures walked { IfOk result (λ refused. BranchWalked (book_in book.now) (flats_of block.now) state.old branch.old refused branch.new) }
    ensures same { IfOk result (λ refused. state.new ≡ state.old) }
{
    let entered = enter_branch(state, branch);
    match walk_binds(block.binds.as_slice(), alloc, book, state)? {
        Some(refusal) => {
            leave_branch(state, branch, entered);
            Ok(Some(refusal))
        }
        None => end_branch(alloc, book.names, state, branch, entered, block),
    }
}
