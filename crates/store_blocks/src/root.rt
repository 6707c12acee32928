//! The leaf at which a run begins.

ghost use Rattle.std.specs.Prelude.{◌≡◌, [], IfOk};
ghost use Rattle.target_meaning.specs.Leaf.{begin};
ghost use Rattle.target_meaning.specs.Stacks.{frame_of, proc_at};
ghost use Rattle.store_blocks.specs.Roots.{IsRoot};

use branch_exec::leaf::Leaf;
use sqlite_items::{Items, at};
use std::alloc::{AllocError, Global};
use target_code::Proc;
use target_meaning::path::Path;
use target_meaning::registers::first_words;
use target_meaning::stack::{Frame, Frames};

/// The frame of the first procedure that begins with these words in its registers.
fn first_frame(alloc: Global, procs: &[Proc], regs: &[u64]) -> Result<Frame, AllocError>
    ensures { IfOk result (λ frame. frame_of procs.now frame ≡ begin (proc_at procs.now 0) regs.now) }
{
    let count = match at(procs, 0) {
        Some(main) => main.regs,
        None => 0,
    };
    let arguments = Vec::from_slice(alloc, regs)?;
    Ok(Frame {
        proc: 0,
        outer: Items::new(alloc),
        at: 0,
        regs: first_words(arguments, count)?,
    })
}

/// The root's leaf: it stands at the beginning of the first procedure, with these words in its first registers and 0 in
/// the others, and made no step.
pub fn root_leaf(
    alloc: Global,
    procs: &[Proc],
    regs: &[u64],
    budget: u64,
) -> Result<Leaf, AllocError>
    ensures { IfOk result (λ leaf. IsRoot procs.now regs.now budget leaf) }
{
    let top = first_frame(alloc, procs, regs)?;
    let frames = Frames {
        top,
        below: Vec::new(alloc),
    };
    Ok(Leaf::new(frames, Path::root(alloc), 0, budget))
}
