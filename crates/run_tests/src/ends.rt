//! How a program of a text ends.

use branch_exec::branch::run_branch;
use branch_exec::end::{BranchEnd, Spot};
use branch_exec::store::Got;
use plain_store::memory::PlainStore;
use std::alloc::{AllocError, Global};
use store_blocks::put::put_block;
use store_blocks::root::root_leaf;
use target_code::{Proc, Program};
use target_meaning::Reason;
use target_meaning::path::{Path, Side};
use target_text::read_program;

/// Where a leaf stands: how many forks lie above it, and of how many of them it is in the right branch.
#[derive(Clone, Copy, PartialEq, Eq, Debug)]
pub struct Place {
    /// The forks above it.
    pub forks: usize,
    /// Those in whose right branch it is.
    pub rights: usize,
}

/// What is expected of a run.
#[derive(Clone, Copy, PartialEq, Eq, Debug)]
pub enum Outcome {
    /// Its first result, or 0, and its steps.
    Done {
        first: u64,
        steps: u64,
    },
    /// A leaf is stuck at this line.
    Stuck {
        place: Place,
        line: u64,
        reason: Reason,
    },
    /// A leaf does not hold this at this line of the procedure whose name begins with this letter.
    Unowned {
        place: Place,
        letter: u8,
        line: u64,
        block: u64,
        offset: u64,
    },
    /// A leaf may make no further step.
    OutOfSteps(Place),
    /// A claim does not fit.
    Full {
        at: u64,
        len: u64,
    },
    /// A leaf would pass a limit of depth.
    Depth(Place),
    /// Want of memory.
    Memory,
}

/// At the root.
pub const ROOT: Place = Place {
    forks: 0,
    rights: 0,
};

/// In the left branch of the root's fork.
pub const LEFT: Place = Place {
    forks: 1,
    rights: 0,
};

/// In its right branch.
pub const RIGHT: Place = Place {
    forks: 1,
    rights: 1,
};

fn place_of(path: &Path) -> Place {
    let sides = path.sides();
    let mut rights: usize = 0;
    for side in sides {
        if *side == Side::Right {
            rights = rights.wrapping_add(1);
        }
    }
    Place {
        forks: sides.len(),
        rights,
    }
}

fn unowned(spot: &Spot, block: u64, offset: u64) -> Outcome {
    let letter = match spot.proc.bytes() {
        [first, ..] => *first,
        [] => 0,
    };
    Outcome::Unowned {
        place: place_of(&spot.path),
        letter,
        line: spot.line,
        block,
        offset,
    }
}

fn done(regs: &[u64], steps: u64) -> Outcome {
    match regs {
        [first, ..] => Outcome::Done {
            first: *first,
            steps,
        },
        [] => Outcome::Done { first: 0, steps },
    }
}

fn told(end: &BranchEnd) -> Outcome {
    match end {
        BranchEnd::Done { regs, steps } => done(regs.as_slice(), *steps),
        BranchEnd::Stuck { spot, reason } => Outcome::Stuck {
            place: place_of(&spot.path),
            line: spot.line,
            reason: *reason,
        },
        BranchEnd::Unowned {
            spot,
            block,
            offset,
        } => unowned(spot, *block, *offset),
        BranchEnd::OutOfSteps { path } => Outcome::OutOfSteps(place_of(path)),
        BranchEnd::Full { at, len } => Outcome::Full { at: *at, len: *len },
        BranchEnd::Depth { path } => Outcome::Depth(place_of(path)),
        BranchEnd::Memory => Outcome::Memory,
    }
}

/// The program of a text. A refusal is no want of memory, but ends a test like it.
fn program(alloc: Global, text: &[u8]) -> Result<Program, AllocError> {
    read_program(alloc, text).map_err(|_| AllocError)
}

/// How procedures end that begin with these words, in a store.
fn run(
    alloc: Global,
    procs: &[Proc],
    words: &[u64],
    budget: u32,
    store: &mut PlainStore,
) -> Result<Outcome, AllocError> {
    let leaf = root_leaf(alloc, procs, words, u64::from(budget))?;
    let end = run_branch(alloc, procs, leaf, store);
    Ok(told(&end))
}

/// How a program without inputs ends, in a heap of so many words.
pub fn ends(alloc: Global, text: &[u8], budget: u32, cap: u64) -> Result<Outcome, AllocError> {
    let program = program(alloc, text)?;
    let mut store = PlainStore::new(alloc, cap)?;
    run(alloc, program.procs.as_slice(), &[], budget, &mut store)
}

/// How a program of one array ends, on the block of 7 and 8.
pub fn ends_on_block(alloc: Global, text: &[u8], budget: u32) -> Result<Outcome, AllocError> {
    let program = program(alloc, text)?;
    let mut store = PlainStore::new(alloc, 16)?;
    match put_block(&mut store, &[7, 8]) {
        Got::Won(name) => run(
            alloc,
            program.procs.as_slice(),
            &[name, 0, 2],
            budget,
            &mut store,
        ),
        _ => Err(AllocError),
    }
}
