//! What a fork leaves.

ghost use Rattle.std.specs.Prelude.{◌≡◌, ℕ, List, IfOk, OnOk};
ghost use Rattle.context_laws.specs.Steps.{with_spots};
ghost use Rattle.range_split.specs.Places.{Places};
ghost use Rattle.rule_check.specs.Context as d;
ghost use Rattle.rule_forks.specs.Closing.{JoinedTo, outside};
ghost use Rattle.rule_forks.specs.Forks.{ClosedTo, forked_as};

use crate::fork::{Branch, Fork};
use crate::results::fork_results;
use nres_core::Refusal;
use ownership::{Context, bind};
use range_split::close_branch;
use std::alloc::{AllocError, Global};

/// A fork of which a branch is over, unless that was refused.
pub fn forked(
    fork: Fork,
    said: Result<Option<Refusal>, AllocError>,
) -> Result<Result<Fork, Refusal>, AllocError>
    ensures { result ≡ forked_as fork said }
{
    match said {
        Ok(None) => Ok(Ok(fork)),
        Ok(Some(refusal)) => {
            drop(fork);
            Ok(Err(refusal))
        }
        Err(error) => {
            drop(fork);
            Err(error)
        }
    }
}

/// Both branches are over, unless the fork was refused: what they used up is gone, and their results are bound.
pub fn close_fork(
    alloc: Global,
    context: &mut Context,
    outs: &[u32],
    opened: Result<Fork, Refusal>,
) -> Result<Option<Refusal>, AllocError>
    ensures closed { IfOk result (λ said. ClosedTo context.old context.new outs.now opened said) }
    ensures saved { context.new.saved ≡ context.old.saved }
{
    match opened {
        Ok(fork) => {
            let joined = join(alloc, context, outs, &fork);
            drop(fork);
            match joined {
                Ok(()) => Ok(None),
                Err(error) => Err(error),
            }
        }
        Err(refusal) => Ok(Some(refusal)),
    }
}

fn join(alloc: Global, context: &mut Context, outs: &[u32], fork: &Fork) -> Result<(), AllocError>
    ensures joined { OnOk result (JoinedTo context.old context.new outs.now fork.now) }
    ensures saved { context.new.saved ≡ context.old.saved }
{
    put_back(context, &fork.left)?;
    put_back(context, &fork.right)?;
    let results = fork_results(
        alloc,
        fork.list,
        fork.left.results.as_slice(),
        fork.right.results.as_slice(),
    )?;
    bind(context, outs, results.as_slice())
}

/// What a branch used up is gone.
fn put_back(context: &mut Context, branch: &Branch) -> Result<(), AllocError>
    ensures put { OnOk result ((us : List ℕ) → Places us branch.now.places context.old.spots → context.new ≡ with_spots context.old (d.put_back us context.old.spots (d.outer (outside branch.now.slice branch.now.count) branch.now.context.spots))) }
    ensures saved { context.new.saved ≡ context.old.saved }
{
    let count = outside(branch.slice, branch.count);
    close_branch(context, branch.places.as_slice(), count, &branch.context)
}

/// How many entries a branch has from outside.
fn outside(slice: Option<u32>, count: usize) -> usize
    ensures { result ≡ outside slice count }
{
    match slice {
        Some(_) => count.saturating_sub(1),
        None => count,
    }
}
