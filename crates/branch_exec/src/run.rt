//! The steps of a leaf.

ghost use Rattle.std.specs.Prelude.{◌≡◌, ◌≤◌, ℕ};
ghost use Rattle.target_meaning.specs.Leaf as meaning;
ghost use Rattle.target_meaning.specs.Stacks.{stack_of};
ghost use Rattle.branch_exec.specs.Leaves.{IsSized};
ghost use Rattle.branch_exec.specs.Legs.{Keeps, TurnIs};
ghost use Rattle.branch_exec.specs.Went.{EndsLeg, KeepsOne};

use crate::leaf::{Leaf, top_registers, waiting_frames, weigh};
use crate::store::{Freed, Got, Seen, Store, Written};
use crate::straight::run_straight;
use std::alloc::Global;
use target_code::Proc;
use target_meaning::Reason;
use target_meaning::advance::advance;
use target_meaning::frame::{Starting, Todo};
use target_meaning::stack::Stack;
use target_meaning::tree::{fill, go_on};

/// How one step of a leaf went.
#[derive(Drop)]
pub enum Turn {
    /// It was made.
    On,
    /// There was none: the leaf has ended.
    Over,
    /// The leaf is stuck.
    Stuck(Reason),
    /// The leaf does not hold this as it must.
    Unowned {
        /// The block.
        block: u64,
        /// The index of the word, or 0.
        offset: u64,
    },
    /// A claim does not fit.
    Full {
        /// The number that the claim walked over.
        at: u64,
        /// The words that it asked for.
        len: u64,
    },
    /// The step of a fork, with what its two branches start with.
    Fork {
        /// The left branch.
        left: Starting,
        /// The right branch.
        right: Starting,
    },
    /// A call that passes a limit of depth.
    Deep,
    /// Want of memory.
    Memory,
}

/// One step of a leaf over a store, with no limit of depth.
pub fn take<S: Store>(alloc: Global, procs: &[Proc], stack: &mut Stack, store: &mut S) -> Turn
    ensures { TurnIs procs.now result (meaning.act procs.now (stack_of procs.now stack.old)) (S.kept store.old)
        (S.kept store.new) stack.old stack.new }
{
    let Ok(todo) = advance(alloc, procs, stack) else {
        return Turn::Memory;
    };
    match todo {
        Todo::Gone => Turn::On,
        Todo::Read { block, index, then } => match store.read(block, index) {
            Seen::Word(word) => {
                fill(stack, then, word);
                Turn::On
            }
            Seen::Outside => Turn::Stuck(Reason::Index),
            Seen::Unowned => Turn::Unowned {
                block,
                offset: index,
            },
        },
        Todo::Write {
            block,
            index,
            value,
            next,
        } => match store.write(block, index, value) {
            Written::Done => {
                go_on(stack, next);
                Turn::On
            }
            Written::Outside => Turn::Stuck(Reason::Index),
            Written::Unowned => Turn::Unowned {
                block,
                offset: index,
            },
        },
        Todo::Make { len, then } => match store.claim(len) {
            Got::Won(name) => {
                fill(stack, then, name);
                Turn::On
            }
            Got::Full { at } => Turn::Full { at, len },
            Got::Memory => Turn::Memory,
        },
        Todo::Cut { block, next } => match store.release(block) {
            Freed::Done => {
                go_on(stack, next);
                Turn::On
            }
            Freed::Unowned => Turn::Unowned { block, offset: 0 },
        },
        Todo::Split { left, right } => Turn::Fork { left, right },
        Todo::Over => Turn::Over,
        Todo::Bad(reason) => Turn::Stuck(reason),
    }
}

/// One step of a leaf over a store.
pub fn step<S: Store>(alloc: Global, procs: &[Proc], leaf: &mut Leaf, store: &mut S) -> Turn
    requires sized { IsSized procs.now leaf.old.stack leaf.old.waiting }
    ensures turn { TurnIs procs.now result (meaning.act procs.now (stack_of procs.now leaf.old.stack)) (S.kept store.old)
        (S.kept store.new) leaf.old.stack leaf.new.stack }
    ensures keeps { Keeps procs.now result leaf.old.stack leaf.new.stack leaf.new.waiting }
    ensures path { leaf.new.path ≡ leaf.old.path }
    ensures done { leaf.new.done ≡ leaf.old.done }
    ensures budget { leaf.new.budget ≡ leaf.old.budget }
{
    let below = waiting_frames(&leaf.stack);
    let held = top_registers(&leaf.stack);
    match take(alloc, procs, &mut leaf.stack, store) {
        Turn::On => match weigh(&leaf.stack, below, held, leaf.waiting) {
            Some(waiting) => {
                leaf.waiting = waiting;
                Turn::On
            }
            None => Turn::Deep,
        },
        turn => turn,
    }
}

/// Runs a leaf up to its next fork or its end. None: it has made as many steps as it may make.
pub fn make_steps<S: Store>(
    alloc: Global,
    procs: &[Proc],
    leaf: &mut Leaf,
    store: &mut S,
) -> Option<Turn>
    requires sized { IsSized procs.now leaf.old.stack leaf.old.waiting }
    ensures leg { (d : ℕ) → EndsLeg procs.now leaf.old.budget d result leaf.old.stack (S.kept store.old)
        leaf.old.done leaf.new.stack (S.kept store.new) leaf.new.done }
    ensures sized { KeepsOne procs.now result leaf.new.stack leaf.new.waiting }
    ensures path { leaf.new.path ≡ leaf.old.path }
    ensures budget { leaf.new.budget ≡ leaf.old.budget }
{
    'steps: while leaf.done < leaf.budget {
        run_straight(procs, leaf, store);
        match step(alloc, procs, leaf, store) {
            Turn::On => leaf.done += 1,
            turn => return Some(turn),
        }
    }
    None
}
