//! The steps of a fork.

ghost use Rattle.std.specs.Prelude.{◌≡◌, ◌+◌, ◌^◌, ◌<◌, ◌++◌, ◌∷◌, [], List, IfOk};
ghost use Rattle.branch_exec.specs.Ends.{IsBad};
ghost use Rattle.branch_exec.specs.Forks.{BothDone, Children, FirstBad, IfBad};
ghost use Rattle.branch_exec.specs.Leaves.{IsSized};
ghost use Rattle.branch_exec.specs.declared.end.BranchEnd.TheVariants as end;
ghost use Rattle.target_meaning.specs.Leaf as meaning;
ghost use Rattle.target_meaning.specs.Stacks.{stack_of};
ghost use Rattle.target_meaning.specs.Turns.{wait_of};
ghost use Rattle.target_meaning.specs.declared.path.Side.TheVariants as side;
ghost use Rattle.target_meaning.specs.declared.stack.Frames.{Frames};
ghost use Rattle.target_meaning.specs.declared.stack.Stack.TheVariants as stack;

use crate::end::BranchEnd;
use crate::leaf::Leaf;
use sqlite_items::Items;
use std::alloc::{AllocError, Global};
use target_code::Proc;
use target_meaning::advance;
use target_meaning::frame::Starting;
use target_meaning::path::{Path, Side};
use target_meaning::stack::Stack;

/// The results of both branches of a fork, and the greater of their counts.
#[derive(Drop)]
pub struct Both {
    /// The results of the left branch.
    pub left: Items<u64>,
    /// The results of the right branch.
    pub right: Items<u64>,
    /// The greater count.
    pub steps: u64,
}

/// The paths of both branches of a fork of the leaf at this path.
pub fn paths(alloc: Global, path: &Path) -> Result<(Path, Path), AllocError>
    ensures { IfOk result (λ r. (r.0 ≡ path.now ++ side.Left ∷ []) × (r.1 ≡ path.now ++ side.Right ∷ [])) }
{
    let left = path.child(alloc, Side::Left)?;
    match path.child(alloc, Side::Right) {
        Ok(right) => Ok((left, right)),
        Err(error) => {
            drop(left);
            Err(error)
        }
    }
}

/// The leaves of both branches of a fork of this leaf, with these paths: they begin with its count after the fork.
pub fn children(left: Starting, right: Starting, one: Path, two: Path, leaf: &Leaf) -> (Leaf, Leaf)
    requires left { left.frames.below.items ≡ [] }
    requires right { right.frames.below.items ≡ [] }
    requires one { one ≡ leaf.now.path ++ side.Left ∷ [] }
    requires two { two ≡ leaf.now.path ++ side.Right ∷ [] }
    requires unspent { leaf.now.done < leaf.now.budget }
    ensures { Children left right leaf.now result.0 result.1 }
{
    let budget = leaf.budget;
    let done = leaf.done + 1;
    (
        Leaf::new(left.frames, one, done, budget),
        Leaf::new(right.frames, two, done, budget),
    )
}

/// The results of both branches, or the left one's bad end, or the right one's.
pub fn results(one: BranchEnd, two: BranchEnd) -> Result<Both, BranchEnd>
    ensures bad { IfBad result (λ e. IsBad e × FirstBad one two e) }
    ensures done { IfOk result (λ r. BothDone one two r) }
{
    match one {
        BranchEnd::Done { regs: left, steps } => right_too(left, steps, two),
        end => {
            drop(two);
            Err(end)
        }
    }
}

/// The results of both branches, where the left one has these.
pub fn right_too(left: Items<u64>, first: u64, two: BranchEnd) -> Result<Both, BranchEnd>
    ensures bad { IfBad result (λ e. IsBad e × (e ≡ two)) }
    ensures done { IfOk result (λ r. BothDone (end.Done left first) two r) }
{
    match two {
        BranchEnd::Done { regs: right, steps } => Ok(Both {
            left,
            right,
            steps: first.max(steps),
        }),
        end => {
            drop(left);
            Err(end)
        }
    }
}

/// The join: the results of both branches come back to the leaf that waits at its fork, whose count is then the greater
/// one and one more. It takes no memory.
pub fn rejoin(procs: &[Proc], leaf: &mut Leaf, left: &[u64], right: &[u64], steps: u64)
    requires { steps + 1 < 2 ^ 64 }
    ensures joined { (fs : Frames) → leaf.old.stack ≡ stack.Run fs →
        stack_of procs.now leaf.new.stack ≡ meaning.joined (wait_of procs.now fs) left.now right.now }
    ensures sized { IsSized procs.now leaf.old.stack leaf.old.waiting → IsSized procs.now leaf.new.stack leaf.new.waiting }
    ensures done { leaf.new.done ≡ steps + 1 }
    ensures path { leaf.new.path ≡ leaf.old.path }
    ensures budget { leaf.new.budget ≡ leaf.old.budget }
{
    if let Stack::Run(frames) = &mut leaf.stack {
        advance::rejoin(procs, frames, left, right);
    }
    leaf.done = steps + 1;
}
