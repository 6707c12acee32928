//! A branch is gone over with its own entries.

ghost use Rattle.std.specs.Prelude.{◌≡◌, length, Ok, IfOk};
ghost use Rattle.nres_core.specs.FlatTree.{flats_of};
ghost use Rattle.rule_check.specs.Steps.{Book, ended};
ghost use Rattle.rule_forks.specs.Forks.{Keeps, branch_with, entered_in, left_in, moved_in};
ghost use Rattle.rule_steps.specs.Ends.{astray_of};
ghost use Rattle.rule_steps.specs.Loops.{or_refused};
ghost use Rattle.rule_steps.specs.States.{ctx_of};

use crate::fork::Branch;
use nres_core::{FlatBlock, Refusal};
use rule_steps::{State, finish};
use std::alloc::{AllocError, Global};
use std::mem;
use target_code::Name;

/// Where a branch was entered.
#[derive(Clone, Copy)]
pub struct Entered {
    /// How many facts there were.
    pub facts: usize,
    /// Where the list of binds around it began.
    pub start: usize,
}

/// A branch's own entries take the place of those outside.
pub fn enter_branch(state: &mut State, branch: &mut Branch) -> Entered
    ensures state { state.new ≡ entered_in branch.old state.old }
    ensures branch { branch.new ≡ branch_with branch.old state.old.context }
    ensures facts { result.facts ≡ length state.old.facts }
    ensures start { result.start ≡ state.old.start }
{
    let entered = Entered {
        facts: state.facts.len(),
        start: state.start,
    };
    mem::swap(&mut state.context, &mut branch.context);
    state.start = state.calculations.len();
    entered
}

/// The entries outside are there again, and all else is as it was.
pub fn leave_branch(state: &mut State, branch: &mut Branch, entered: Entered)
    ensures state { state.new ≡ left_in entered branch.old state.old }
    ensures branch { branch.new ≡ branch_with branch.old state.old.context }
{
    mem::swap(&mut state.context, &mut branch.context);
    state.facts.leave(entered.facts);
    state.calculations.leave(state.start);
    state.start = entered.start;
}

/// The end of a branch: its results, or its refusal. The entries outside are there again.
pub fn end_branch(
    alloc: Global,
    names: &[Name],
    state: &mut State,
    branch: &mut Branch,
    entered: Entered,
    block: &FlatBlock,
) -> Result<Option<Refusal>, AllocError>
    ensures ended { IfOk result (λ refused. (book : Book) → book.names ≡ names.now → ended book branch.old.count (astray_of branch.old.slice) (ctx_of state.old) (flats_of block.now).ending ≡ or_refused refused (Ok (moved_in branch.new))) }
    ensures state { IfOk result (λ refused. state.new ≡ left_in entered branch.old state.old) }
    ensures keeps { IfOk result (λ refused. Keeps branch.old branch.new) }
{
    match finish(
        alloc,
        names,
        &mut state.context,
        branch.count,
        branch.slice,
        block,
    )? {
        Ok(results) => {
            branch.results = results;
            leave_branch(state, branch, entered);
            Ok(None)
        }
        Err(refusal) => {
            leave_branch(state, branch, entered);
            Ok(Some(refusal))
        }
    }
}
