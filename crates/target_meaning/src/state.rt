//! A state of the machine, and its step.

ghost use Rattle.std.specs.Prelude.{◌≡◌, ◌≤◌, List, [], MatchOption, IfOk, IsOk, OnErr};
ghost use Rattle.target_code.specs.declared.tree.Proc.{Proc};
ghost use Rattle.target_meaning.specs.Leaf.{begin};
ghost use Rattle.target_meaning.specs.Machine.{claims, words_of};
ghost use Rattle.target_meaning.specs.Stacks.{frame_of, proc_at};
ghost use Rattle.target_meaning.specs.States.{first_state, root_results, state_of, step_of};
ghost use Rattle.target_meaning.specs.Trees.{leaf_at};
ghost use Rattle.target_meaning.specs.Turns.{PlainNext};
ghost use Rattle.target_meaning.specs.Views.{leaves_of};

use crate::answer::StepAnswer;
use crate::memory::Memory;
use crate::path::{Path, Side};
use crate::registers::first_words;
use crate::stack::{Frame, Frames, Stack};
use crate::tree::{Tree, walk};
use crate::view::{LeafView, add_leaves};
use sqlite_items::{Items, at};
use std::alloc::{AllocError, Global};
use target_code::Program;

/// A state of the machine: the fork tree, the heap with its capacity and claimed words, and whether it is full.
#[derive(Drop)]
pub struct State {
    tree: Tree,
    memory: Memory,
    full: bool,
}

impl State {
    /// The state at the beginning of a program: one leaf at the first instruction of `main`, whose first registers
    /// are `regs`, and a heap of `cap` words with these blocks, each with its name, made in this order.
    ///
    /// The program is formed, `regs` are as many words as `main` has arguments, and the names differ and lie in 1 to
    /// `cap`; none of this is needed for what is promised here. The blocks' claims must fit the capacity.
    pub fn new(
        alloc: Global,
        program: &Program,
        regs: &[u64],
        blocks: &[(u64, Items<u64>)],
        cap: u64,
    ) -> Result<State, AllocError>
        requires { claims blocks.now ≤ cap }
        ensures { IfOk result (λ state. state_of program.now.procs state ≡
            first_state program.now.procs regs.now blocks.now cap) }
    {
        let memory = Memory::with_blocks(alloc, blocks, cap)?;
        let frame = first_frame(alloc, program, regs)?;
        let frames = Frames {
            top: frame,
            below: Vec::new(alloc),
        };
        Ok(State {
            tree: Tree::Leaf(Stack::Run(frames)),
            memory,
            full: false,
        })
    }

    /// The result registers of the root; `None` exactly where it has not ended.
    pub fn result(&self) -> Option<&[u64]>
        ensures { (procs : List Proc) → MatchOption result
            (root_results (state_of procs self.now).tree ≡ None)
            (λ words. root_results (state_of procs self.now).tree ≡ Some words.now) }
    {
        match &self.tree {
            Tree::Leaf(Stack::End(words)) => Some(words.as_slice()),
            _ => None,
        }
    }

    /// What is seen of the leaves that have not ended, left to right, in a state of this program.
    pub fn leaves(&self, alloc: Global, program: &Program) -> Result<Vec<LeafView>, AllocError>
        ensures { IfOk result (λ views. views.items ≡ leaves_of program.now.procs
            (state_of program.now.procs self.now).heap [] (state_of program.now.procs self.now).tree) }
    {
        let mut views = Vec::new(alloc);
        let procs = program.procs.as_slice();
        let root = Path::root(alloc);
        add_leaves(&self.tree, alloc, procs, &self.memory, &root, &mut views)?;
        Ok(views)
    }

    /// The words of a block; `None` exactly where the name is not live.
    pub fn block(&self, name: u64) -> Option<&[u64]>
        ensures { (procs : List Proc) → MatchOption result
            (words_of ((state_of procs self.now).heap.cells name) ≡ None)
            (λ words. words_of ((state_of procs self.now).heap.cells name) ≡ Some words.now) }
    {
        self.memory.words(name)
    }
}

/// The frame of `main` that begins with these arguments.
fn first_frame(alloc: Global, program: &Program, regs: &[u64]) -> Result<Frame, AllocError>
    ensures { IfOk result (λ frame. frame_of program.now.procs frame ≡
        begin (proc_at program.now.procs 0) regs.now) }
{
    let count = match at(program.procs.as_slice(), 0) {
        Some(main) => main.regs,
        None => 0,
    };
    let arguments = Vec::from_slice(alloc, regs)?;
    Ok(Frame {
        proc: 0,
        outer: Items::new(alloc),
        at: 0,
        regs: first_words(arguments, count)?,
    })
}

/// One step of the machine: one instruction of the leaf at `path`, the test of a loop there, the return from a
/// procedure, or the join of the fork at `path`. An `alloc` takes `name`, which no other step looks at.
///
/// Only `Moved` changes the state. A step for which an `alloc` has no room makes the machine full, and then each
/// further step answers `Full`. The program is that of the state; nothing of what is promised here needs it. A step
/// of `const`, `mov`, a calculation, `load`, `store`, `free` or a loop's test takes no memory.
pub fn step(
    alloc: Global,
    program: &Program,
    state: &mut State,
    path: &[Side],
    name: u64,
) -> Result<StepAnswer, AllocError>
    ensures ok { IfOk result (λ answer. (answer, state_of program.now.procs state.new) ≡
        step_of program.now.procs (state_of program.now.procs state.old) path.now name) }
    ensures plain { PlainNext (leaf_at (state_of program.now.procs state.old).tree path.now) → IsOk result }
    ensures err { OnErr result (state_of program.now.procs state.new ≡ state_of program.now.procs state.old) }
{
    if state.full {
        return Ok(StepAnswer::Full);
    }
    if let Tree::Leaf(Stack::End(_)) = &state.tree {
        return Ok(StepAnswer::Ended);
    }
    let answer = walk(
        alloc,
        program.procs.as_slice(),
        &mut state.tree,
        &mut state.memory,
        path,
        name,
    )?;
    if answer == StepAnswer::Full {
        state.full = true;
    }
    Ok(answer)
}
