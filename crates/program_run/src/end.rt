//! How a run ended.

ghost use Rattle.std.specs.Prelude.{IfOk};
ghost use Rattle.program_run.specs.Ends.{AreTold, Tells};

use branch_exec::end::{BranchEnd, Spot};
use nres_core::Value;
use run_results::{Shown, results};
use run_stores::RunStore;
use sqlite_items::Items;
use std::alloc::{AllocError, Global};
use target_code::Rep;
use target_meaning::Reason;
use target_meaning::path::Path;

/// How the run of a program ended.
#[derive(Drop)]
pub enum RunEnd {
    /// With results that represent these values, in order.
    Values(Items<Value>),
    /// With results of which this one, counted from 1, is the first that represents no value.
    NoValue(u64),
    /// A leaf is stuck.
    Stuck {
        /// Where it stands.
        spot: Spot,
        /// Why.
        reason: Reason,
    },
    /// A leaf touches, frees, hands or lends what it does not hold as it must.
    Unowned {
        /// Where it stands.
        spot: Spot,
        /// The block.
        block: u64,
        /// The index of the word, the offset of the part, or 0.
        offset: u64,
    },
    /// A leaf that has not ended has made as many steps as it may make.
    OutOfSteps {
        /// Its path from the root.
        path: Path,
    },
    /// The block of an input, or one that the program asks for, does not fit.
    HeapFull {
        /// The words claimed before.
        at: u64,
        /// The words that are asked for.
        len: u64,
    },
    /// A call or a fork would pass a limit of depth.
    Depth {
        /// The path of its leaf from the root.
        path: Path,
    },
}

/// The values of the results of a root that ended with these registers, or the first result that has none.
fn shown<S: RunStore>(
    alloc: Global,
    outs: &[Rep],
    regs: &[u64],
    store: &S,
) -> Result<RunEnd, AllocError>
    ensures { IfOk result (λ told. AreTold (S.kept store.now).top outs.now regs.now told) }
{
    match results(alloc, store, outs, regs)? {
        Shown::Values(values) => Ok(RunEnd::Values(values)),
        Shown::NoValue(number) => Ok(RunEnd::NoValue(number)),
    }
}

/// How a run ended whose root ended so over a store.
pub(crate) fn told<S: RunStore>(
    alloc: Global,
    outs: &[Rep],
    end: BranchEnd,
    store: &S,
) -> Result<RunEnd, AllocError>
    ensures { IfOk result (λ told. Tells end (S.kept store.now) outs.now told) }
{
    match end {
        BranchEnd::Done { regs, steps: _ } => shown(alloc, outs, regs.as_slice(), store),
        BranchEnd::Stuck { spot, reason } => Ok(RunEnd::Stuck { spot, reason }),
        BranchEnd::Unowned {
            spot,
            block,
            offset,
        } => Ok(RunEnd::Unowned {
            spot,
            block,
            offset,
        }),
        BranchEnd::OutOfSteps { path } => Ok(RunEnd::OutOfSteps { path }),
        BranchEnd::Full { at: _, len } => Ok(RunEnd::HeapFull {
            at: store.claimed(),
            len,
        }),
        BranchEnd::Depth { path } => Ok(RunEnd::Depth { path }),
        BranchEnd::Memory => Err(AllocError),
    }
}
