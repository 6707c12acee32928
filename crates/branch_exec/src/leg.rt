//! A leg of a branch: up to its end or its next fork.

ghost use Rattle.std.specs.Prelude.{◌≡◌, ◌≤◌, ◌<◌, ℕ, length, List};
ghost use Rattle.target_meaning.specs.Stacks.{stack_of};
ghost use Rattle.target_meaning.specs.Turns.{run_of};
ghost use Rattle.branch_exec.specs.Leaves.{IsSized};
ghost use Rattle.branch_exec.specs.Went.{LegGoes, LegKeeps};
ghost use Rattle.branch_exec.specs.Turned.{DepthOf, EndedWith, ForkTold, OverWith, StuckIs, Turned, UnownedIs};

use crate::end::{BranchEnd, spot_of};
use crate::leaf::Leaf;
use crate::run::{Turn, make_steps};
use crate::store::Store;
use sqlite_items::Items;
use std::alloc::Global;
use std::mem;
use target_code::Proc;
use target_meaning::Reason;
use target_meaning::frame::Starting;
use target_meaning::path::Path;
use target_meaning::stack::Stack;

/// How many forks may lie above a leaf.
const FORKS: usize = 64;

/// What a leg ended with.
#[derive(Drop)]
pub enum Leg {
    /// The branch's end.
    Ended(BranchEnd),
    /// A fork whose parts can be given, with what its branches start with. The leaf waits at it, with the count before it.
    Forked(Starting, Starting),
}

/// Runs a leaf to its end or up to its next fork. The leaf's path and budget stay. Where it answers `Forked` the store
/// is not narrowed yet, and less than 64 forks lie above the leaf. Nothing is said of a leaf after `Ended`.
pub fn run_leg<S: Store>(alloc: Global, procs: &[Proc], leaf: &mut Leaf, store: &mut S) -> Leg
    requires sized { IsSized procs.now leaf.old.stack leaf.old.waiting }
    ensures goes { (d : ℕ) → LegGoes procs.now d result leaf.old (S.kept store.old) leaf.new (S.kept store.new) }
    ensures keeps { LegKeeps procs.now result leaf.old leaf.new }
{
    match make_steps(alloc, procs, leaf, store) {
        None => Leg::Ended(spent(alloc, leaf)),
        Some(turn) => turned(alloc, procs, turn, leaf, store),
    }
}

// The end of a leaf that has made as many steps as it may make.
fn spent(alloc: Global, leaf: &mut Leaf) -> BranchEnd
    ensures { EndedWith result leaf.old }
{
    match &mut leaf.stack {
        Stack::End(regs) => BranchEnd::Done {
            regs: mem::replace(regs, Items::new(alloc)),
            steps: leaf.done,
        },
        Stack::Run(_) => match leaf.path.copy(alloc) {
            Ok(path) => BranchEnd::OutOfSteps { path },
            Err(_) => BranchEnd::Memory,
        },
    }
}

// The end of a leaf that has ended.
fn over(alloc: Global, leaf: &mut Leaf) -> BranchEnd
    ensures { OverWith result leaf.old }
{
    match &mut leaf.stack {
        Stack::End(regs) => BranchEnd::Done {
            regs: mem::replace(regs, Items::new(alloc)),
            steps: leaf.done,
        },
        Stack::Run(_) => BranchEnd::Memory,
    }
}

// The end of a leaf at a limit of depth.
fn depth(alloc: Global, path: &Path) -> BranchEnd
    ensures { DepthOf result path.now }
{
    match path.copy(alloc) {
        Ok(path) => BranchEnd::Depth { path },
        Err(_) => BranchEnd::Memory,
    }
}

// The end of a leaf that is stuck.
fn stuck(alloc: Global, procs: &[Proc], leaf: &mut Leaf, reason: Reason) -> BranchEnd
    ensures { StuckIs procs.now result reason leaf.old }
{
    let Stack::Run(frames) = &mut leaf.stack else {
        return BranchEnd::Memory;
    };
    match spot_of(alloc, procs, frames, &leaf.path) {
        Ok(spot) => BranchEnd::Stuck { spot, reason },
        Err(_) => BranchEnd::Memory,
    }
}

// The end of a leaf that is unowned.
fn unowned(alloc: Global, procs: &[Proc], leaf: &mut Leaf, block: u64, offset: u64) -> BranchEnd
    ensures { UnownedIs procs.now result block offset leaf.old }
{
    let Stack::Run(frames) = &mut leaf.stack else {
        return BranchEnd::Memory;
    };
    match spot_of(alloc, procs, frames, &leaf.path) {
        Ok(spot) => BranchEnd::Unowned {
            spot,
            block,
            offset,
        },
        Err(_) => BranchEnd::Memory,
    }
}

// A fork: the limit of depth, and then the parts.
fn forked<S: Store>(
    alloc: Global,
    procs: &[Proc],
    left: Starting,
    right: Starting,
    leaf: &mut Leaf,
    store: &S,
) -> Leg
    ensures told { ForkTold procs.now result left right (S.kept store.now).top leaf.old leaf.new }
{
    if leaf.path.sides().len() >= FORKS {
        drop((left, right));
        return Leg::Ended(depth(alloc, &leaf.path));
    }
    match store.test_parts(&left, &right) {
        None => Leg::Forked(left, right),
        Some((block, offset)) => {
            drop((left, right));
            Leg::Ended(unowned(alloc, procs, leaf, block, offset))
        }
    }
}

// What a leg ends with, by the turn that was no step.
fn turned<S: Store>(alloc: Global, procs: &[Proc], turn: Turn, leaf: &mut Leaf, store: &S) -> Leg
    ensures { Turned procs.now turn result (S.kept store.now).top leaf.old leaf.new }
{
    match turn {
        Turn::Fork { left, right } => forked(alloc, procs, left, right, leaf, store),
        Turn::Over => Leg::Ended(over(alloc, leaf)),
        Turn::Stuck(reason) => Leg::Ended(stuck(alloc, procs, leaf, reason)),
        Turn::Unowned { block, offset } => Leg::Ended(unowned(alloc, procs, leaf, block, offset)),
        Turn::Full { at, len } => Leg::Ended(BranchEnd::Full { at, len }),
        Turn::Deep => Leg::Ended(depth(alloc, &leaf.path)),
        Turn::On => Leg::Ended(BranchEnd::Memory),
        Turn::Memory => Leg::Ended(BranchEnd::Memory),
    }
}
