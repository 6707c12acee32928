//! How a branch ends.

ghost use Rattle.std.specs.Prelude.{◌≡◌, IfOk};
ghost use Rattle.target_meaning.specs.Stacks.{proc_at};
ghost use Rattle.target_meaning.specs.Turns.{run_of};
ghost use Rattle.branch_exec.specs.Ends.{IsSpot};

use sqlite_items::{Items, at};
use std::alloc::{AllocError, Global};
use target_code::{Name, Proc};
use target_meaning::Reason;
use target_meaning::path::Path;
use target_meaning::stack::Frames;
use target_meaning::view::line_of;

/// Where a leaf stands.
#[derive(Drop)]
pub struct Spot {
    /// Its path from the root.
    pub path: Path,
    /// The procedure of its innermost frame.
    pub proc: Name,
    /// The line of what it is next to do, from 0 at the procedure's `proc` line.
    pub line: u64,
}

/// How a branch ended.
#[derive(Drop)]
pub enum BranchEnd {
    /// With results.
    Done {
        /// The results.
        regs: Items<u64>,
        /// Its count of steps.
        steps: u64,
    },
    /// A leaf is stuck.
    Stuck {
        /// Where it stands.
        spot: Spot,
        /// Why.
        reason: Reason,
    },
    /// A leaf touches, frees, hands or lends what it does not hold as it must.
    Unowned {
        /// Where it stands.
        spot: Spot,
        /// The block.
        block: u64,
        /// The index of the word, the offset of the part, or 0.
        offset: u64,
    },
    /// A leaf that has not ended has made as many steps as it may make.
    OutOfSteps {
        /// Its path from the root.
        path: Path,
    },
    /// A claim does not fit.
    Full {
        /// The number that the claim walked over.
        at: u64,
        /// The words that it asked for.
        len: u64,
    },
    /// A call or a fork would pass a limit of depth.
    Depth {
        /// The path of its leaf from the root.
        path: Path,
    },
    /// Want of memory.
    Memory,
}

// The name of a procedure, `0` for a number that none has.
fn name_of(alloc: Global, procs: &[Proc], number: usize) -> Result<Name, AllocError>
    ensures { IfOk result (λ name. name ≡ (proc_at procs.now number).name) }
{
    match at(procs, number) {
        Some(proc) => proc.name.copy(alloc),
        None => Name::of_number(alloc, 0),
    }
}

/// Where a leaf with these frames and this path stands. What the frames show stays the same.
pub fn spot_of(
    alloc: Global,
    procs: &[Proc],
    frames: &mut Frames,
    path: &Path,
) -> Result<Spot, AllocError>
    ensures spot { IfOk result (λ spot. IsSpot spot path.now (run_of procs.now frames.old)) }
    ensures kept { run_of procs.now frames.new ≡ run_of procs.now frames.old }
{
    let line = line_of(procs, frames);
    let proc = name_of(alloc, procs, frames.top.proc)?;
    match path.copy(alloc) {
        Ok(path) => Ok(Spot { path, proc, line }),
        Err(error) => {
            drop(proc);
            Err(error)
        }
    }
}
