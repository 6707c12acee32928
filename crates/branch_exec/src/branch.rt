//! Running a whole branch on one thread.

ghost use Rattle.std.specs.Prelude.{◌≡◌, ◌≤◌, ◌<◌, ◌+◌, ◌-◌, [], length, IfOk, OnErr, true};
ghost use Rattle.branch_exec.specs.Ends.{IsBad};
ghost use Rattle.branch_exec.specs.Forks.{Bounded, Children, ForkStops, IfBad, room_of};
ghost use Rattle.branch_exec.specs.Leaves.{IsSized, most_forks};
ghost use Rattle.branch_exec.specs.Stores.{CanGive, Narrows};
ghost use Rattle.branch_exec.specs.Went.{BothRan, EndIs, Kin};

use crate::end::BranchEnd;
use crate::fork::{Both, children, paths, rejoin, right_too};
use crate::leaf::Leaf;
use crate::leg::{Leg, run_leg};
use crate::store::Store;
use std::alloc::{AllocError, Global};
use target_code::Proc;
use target_meaning::frame::Starting;

// Begins a fork: the leaves of its branches, and the left one's piece on top.
fn enter<S: Store>(
    alloc: Global,
    left: Starting,
    right: Starting,
    leaf: &Leaf,
    store: &mut S,
) -> Result<(Leaf, Leaf), AllocError>
    requires can { CanGive (S.kept store.old).top left right }
    requires first { left.frames.below.items ≡ [] }
    requires second { right.frames.below.items ≡ [] }
    requires unspent { leaf.now.done < leaf.now.budget }
    ensures err { OnErr result (S.kept store.new ≡ S.kept store.old) }
    ensures ok { IfOk result (λ r. Children left right leaf.now r.0 r.1 × Narrows (S.kept store.old) (S.kept store.new) left right) }
{
    match paths(alloc, &leaf.path) {
        Ok((one, two)) => match store.narrow(&left, &right) {
            Ok(()) => Ok(children(left, right, one, two, leaf)),
            Err(error) => {
                drop((left, right, one, two));
                Err(error)
            }
        },
        Err(error) => {
            drop((left, right));
            Err(error)
        }
    }
}

// Both branches of a fork, the left one first. Where it ends badly the right one is not run.
#[cycle(run_branch)]
fn fork_here<S: Store>(
    alloc: Global,
    procs: &[Proc],
    left: Starting,
    right: Starting,
    leaf: &Leaf,
    store: &mut S,
) -> Result<Both, BranchEnd>
    requires bounded { Bounded leaf.now }
    requires shallow { length leaf.now.path < most_forks }
    requires unspent { leaf.now.done < leaf.now.budget }
    requires can { CanGive (S.kept store.old).top left right }
    requires first { left.frames.below.items ≡ [] }
    requires second { right.frames.below.items ≡ [] }
    ensures kin { Kin (S.kept store.old) (S.kept store.new) }
    ensures bad { IfBad result (λ e. IsBad e × ForkStops true procs.now leaf.now.budget (room_of leaf.now.path - 1) leaf.now.path left right
        (S.kept store.old) (S.kept store.new) (leaf.now.done + 1) e) }
    ensures small { IfOk result (λ r. r.steps ≤ leaf.now.budget + (room_of leaf.now.path - 1)) }
    ensures ran { IfOk result (λ r. BothRan procs.now leaf.now.budget (room_of leaf.now.path - 1) left right
        (S.kept store.old) (S.kept store.new) (leaf.now.done + 1) r.left r.right r.steps) }
{
    match enter(alloc, left, right, leaf, store) {
        Err(_) => Err(BranchEnd::Memory),
        Ok((first, second)) => match run_branch(alloc, procs, first, store) {
            BranchEnd::Done { regs, steps } => {
                store.turn();
                let two = run_branch(alloc, procs, second, store);
                store.widen();
                right_too(regs, steps, two)
            }
            end => {
                drop(second);
                store.widen();
                Err(end)
            }
        },
    }
}

/// Runs a branch to its end: leg after leg, and at a fork the left branch, then the right one, then the join. Where the
/// left branch ends badly the right one is not run. The store has as many pieces after it as before.
#[cycle(run_branch)]
pub fn run_branch<S: Store>(alloc: Global, procs: &[Proc], leaf: Leaf, store: &mut S) -> BranchEnd
    requires bounded { Bounded leaf }
    requires sized { IsSized procs.now leaf.stack leaf.waiting }
    ensures { EndIs true procs.now leaf.budget (room_of leaf.path) leaf.path leaf.stack (S.kept store.old) leaf.done result (S.kept store.new) }
{
    let mut leaf = leaf;
    'legs: loop {
        match run_leg(alloc, procs, &mut leaf, store) {
            Leg::Ended(end) => return end,
            Leg::Forked(left, right) => match fork_here(alloc, procs, left, right, &leaf, store) {
                Ok(both) => rejoin(
                    procs,
                    &mut leaf,
                    both.left.as_slice(),
                    both.right.as_slice(),
                    both.steps,
                ),
                Err(end) => return end,
            },
        }
    }
}
