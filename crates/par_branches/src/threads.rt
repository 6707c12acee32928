//! A branch whose forks run on threads.

ghost use Rattle.std.specs.Prelude.{◌≡◌, ◌<◌, ◌-◌, ◌/◌};
ghost use Rattle.std.specs.Thread.{IsSync};
ghost use Rattle.branch_exec.specs.Forks.{room_of};
ghost use Rattle.par_branches.specs.Forking.{EndsOnThreads};
ghost use Rattle.par_branches.specs.Workers.{MayRun};

use crate::fork::{back, hand};
use crate::gate::Gate;
use crate::task::{Ended, Task};
use branch_exec::branch::run_branch;
use branch_exec::end::BranchEnd;
use branch_exec::fork::rejoin;
use branch_exec::leg::{Leg, run_leg};
use branch_exec::store::Shared;
use std::alloc::Global;
use std::thread;
use std::thread::Threads;
use target_code::Proc;
use target_meaning::path::Side;

// Both branches of a fork, each on a thread where one can be started; else the caller runs it.
#[cycle(run_threads)]
fn run_both<S: Shared + Send + Drop, R: Threads + Sync, G: Gate + Sync>(
    rt: &R,
    gate: &G,
    alloc: Global,
    procs: &[Proc],
    workers: u32,
    both: (Task<S>, Task<S>),
) -> (Ended<S>, Ended<S>)
    requires sync { IsSync R.row × IsSync G.row }
    requires same { room_of both.1.leaf.path ≡ room_of both.0.leaf.path }
    requires first { MayRun procs.now (workers - workers / 2) both.0.leaf (S.kept both.0.store) }
    requires second { MayRun procs.now (workers / 2) both.1.leaf (S.kept both.1.store) }
    ensures left { EndsOnThreads procs.now both.0.leaf (S.kept both.0.store) result.0.end (S.kept result.0.store) }
    ensures right { EndsOnThreads procs.now both.1.leaf (S.kept both.1.store) result.1.end (S.kept result.1.store) }
{
    let (first, second) = both;
    let fewer = workers / 2;
    let more = workers - fewer;
    thread::join(
        rt,
        move || -> Ended<S>
            requires { IsSync R.row × IsSync G.row × MayRun procs.now more first.leaf (S.kept first.store) }
            ensures { EndsOnThreads procs.entry.now first.leaf (S.kept first.store) result.end (S.kept result.store) }
        {
            gate.enter(Side::Left);
            run_threads(rt, gate, alloc, procs, more, first)
        },
        move || -> Ended<S>
            requires { IsSync R.row × IsSync G.row × MayRun procs.now fewer second.leaf (S.kept second.store) }
            ensures { EndsOnThreads procs.entry.now second.leaf (S.kept second.store) result.end (S.kept result.store) }
        {
            gate.enter(Side::Right);
            run_threads(rt, gate, alloc, procs, fewer, second)
        },
    )
}

/// Runs a branch to its end with so many workers. Where it forks and has more than one, its branches run at once, each on
/// a thread of its own where one can be started: the left one has the greater half of the workers, the right one the rest.
/// A branch with one worker runs on its own thread, the left side of each fork first.
///
/// With results its run is the left-first run with the names that its stores drew. Else it stopped where this run stops,
/// and of two bad ends the left one is told; the names that the right one drew then follow those of this run.
#[cycle(run_threads)]
pub fn run_threads<S: Shared + Send + Drop, R: Threads + Sync, G: Gate + Sync>(
    rt: &R,
    gate: &G,
    alloc: Global,
    procs: &[Proc],
    workers: u32,
    task: Task<S>,
) -> Ended<S>
    requires sync { IsSync R.row × IsSync G.row }
    requires may { MayRun procs.now workers task.leaf (S.kept task.store) }
    ensures { EndsOnThreads procs.now task.leaf (S.kept task.store) result.end (S.kept result.store) }
{
    let Task { leaf, store } = task;
    let mut leaf = leaf;
    let mut store = store;
    if workers <= 1 {
        let end = run_branch(alloc, procs, leaf, &mut store);
        return Ended { end, store };
    }
    'legs: loop {
        match run_leg(alloc, procs, &mut leaf, &mut store) {
            Leg::Ended(end) => return Ended { end, store },
            Leg::Forked(left, right) => {
                let Ok(both) = hand(alloc, workers, left, right, &leaf, &mut store) else {
                    let end = BranchEnd::Memory;
                    return Ended { end, store };
                };
                let (one, two) = run_both(rt, gate, alloc, procs, workers, both);
                match back(&mut store, one, two) {
                    Ok(both) => rejoin(
                        procs,
                        &mut leaf,
                        both.left.as_slice(),
                        both.right.as_slice(),
                        both.steps,
                    ),
                    Err(end) => return Ended { end, store },
                }
            }
        }
    }
}
