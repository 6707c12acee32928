//! The steps of a fork on threads that need no thread.

ghost use Rattle.std.specs.Prelude.{◌≡◌, ◌<◌, [], IfOk, OnErr, true};
ghost use Rattle.target_meaning.specs.Piece.{plus};
ghost use Rattle.branch_exec.specs.Ends.{IsBad};
ghost use Rattle.branch_exec.specs.Forks.{BothDone, IfBad};
ghost use Rattle.branch_exec.specs.Stores.{CanGive};
ghost use Rattle.par_branches.specs.Forking.{BothBack, Hands, IsTold};
ghost use Rattle.par_branches.specs.Workers.{Enough};

use crate::task::{Ended, Task};
use branch_exec::end::BranchEnd;
use branch_exec::fork::{Both, children, paths, results};
use branch_exec::leaf::Leaf;
use branch_exec::store::Shared;
use std::alloc::{AllocError, Global};
use target_meaning::frame::Starting;

/// Begins a fork of a leaf: both branches, each with its store. It takes its memory first.
pub fn hand<S: Shared>(
    alloc: Global,
    workers: u32,
    left: Starting,
    right: Starting,
    leaf: &Leaf,
    store: &mut S,
) -> Result<(Task<S>, Task<S>), AllocError>
    requires workers { 1 < workers }
    requires enough { Enough workers (S.kept store.old).weight }
    requires can { CanGive (S.kept store.old).top left right }
    requires first { left.frames.below.items ≡ [] }
    requires second { right.frames.below.items ≡ [] }
    requires unspent { leaf.now.done < leaf.now.budget }
    ensures err { OnErr result (S.kept store.new ≡ S.kept store.old) }
    ensures ok { IfOk result (λ r. Hands left right leaf.now (S.kept store.old) (S.kept store.new) workers
        r.0.leaf (S.kept r.0.store) r.1.leaf (S.kept r.1.store)) }
{
    match paths(alloc, &leaf.path) {
        Ok((one, two)) => match store.hand_out(&left, &right) {
            Ok((first, second)) => {
                let (one, two) = children(left, right, one, two, leaf);
                Ok((
                    Task {
                        leaf: one,
                        store: first,
                    },
                    Task {
                        leaf: two,
                        store: second,
                    },
                ))
            }
            Err(error) => {
                drop((left, right, one, two));
                Err(error)
            }
        },
        Err(error) => {
            drop((left, right));
            Err(error)
        }
    }
}

/// Takes the stores of both branches back, the left one's first. False: there was no memory for what one of them held.
fn take_both<S: Shared>(store: &mut S, first: S, second: S) -> bool
    requires first { (S.kept first).place ≡ (S.kept store.old).place }
    requires second { (S.kept second).place ≡ (S.kept store.old).place }
    ensures back { BothBack (S.kept store.old) (S.kept store.new) (S.kept first) (S.kept second) }
    ensures top { result ≡ true → (S.kept store.new).top ≡ plus (plus (S.kept store.old).top (S.kept first).top) (S.kept second).top }
{
    let one = store.take_back(first);
    let two = store.take_back(second);
    one.is_ok() && two.is_ok()
}

/// Takes the stores of both branches back, the left one's first, and tells how the fork ended.
pub fn back<S: Shared>(store: &mut S, one: Ended<S>, two: Ended<S>) -> Result<Both, BranchEnd>
    requires first { (S.kept one.store).place ≡ (S.kept store.old).place }
    requires second { (S.kept two.store).place ≡ (S.kept store.old).place }
    ensures back { BothBack (S.kept store.old) (S.kept store.new) (S.kept one.store) (S.kept two.store) }
    ensures bad { IfBad result (λ e. IsTold one.end two.end e) }
    ensures done { IfOk result (λ r. BothDone one.end two.end r
        × ((S.kept store.new).top ≡ plus (plus (S.kept store.old).top (S.kept one.store).top) (S.kept two.store).top)) }
{
    let Ended {
        end: one,
        store: first,
    } = one;
    let Ended {
        end: two,
        store: second,
    } = two;
    if take_both(store, first, second) {
        return results(one, two);
    }
    drop((one, two));
    Err(BranchEnd::Memory)
}
