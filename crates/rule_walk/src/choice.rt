//! Where the two sides of `if` begin, and where they meet.

ghost use Rattle.std.specs.Prelude.{◌≡◌, length, IfOk, OnOk};
ghost use Rattle.rule_check.specs.Facts.{defs_behind, learnt};
ghost use Rattle.rule_steps.specs.States.{Grows, ctx_of};
ghost use Rattle.rule_walk.specs.Choices.{Joined, knowing};
ghost use Rattle.rule_walk.specs.Walks.{book_in};

use crate::book::Book;
use crate::sides::bind_results;
use branch_merge::{Side, meet};
use nres_core::{Arg, Place, Refusal};
use rule_steps::{State, refuse};
use std::alloc::{AllocError, Global};

/// An `if` whose first side passed.
#[derive(Clone, Copy)]
pub(crate) struct Joint<'a> {
    /// The place.
    pub place: Place,
    /// The variables of the results.
    pub outs: &'a [u32],
    /// The first side.
    pub left: &'a Side,
}

/// What is known where the test of an `if` holds is known besides. Gives how many facts there were.
pub(crate) fn learn(
    alloc: Global,
    state: &mut State,
    place: Place,
    test: Arg,
) -> Result<usize, AllocError>
    ensures state { OnOk result (state.new ≡ knowing (learnt (defs_behind place (ctx_of state.old).defs) test) state.old) }
    ensures count { IfOk result (λ mark. mark ≡ length state.old.facts) }
{
    let mark = state.facts.len();
    state
        .calculations
        .learn_if(alloc, state.start, place, test, &mut state.facts)?;
    Ok(mark)
}

/// The sides meet: what went in either is gone, and the results of the first are bound.
pub(crate) fn join_sides(
    alloc: Global,
    book: &Book,
    state: &mut State,
    joint: &Joint,
    right: &Side,
) -> Result<Option<Refusal>, AllocError>
    ensures joined { IfOk result (λ refused. Joined (book_in book.now) joint.now.place joint.now.outs.now joint.now.left.now right.now state.old state.new refused) }
    ensures grows { IfOk result (λ refused. Grows state.old state.new) }
{
    match meet(alloc, &mut state.context, joint.left, right)? {
        None => {
            let results = joint.left.results.as_slice();
            bind_results(alloc, &mut state.context, joint.outs, results)?;
            Ok(None)
        }
        Some(fault) => {
            let refusal = refuse(alloc, book.names, joint.place, b"if", &[], fault)?;
            Ok(Some(refusal))
        }
    }
}
