//! The fork tree, and one step at a path.

ghost use Rattle.std.specs.Prelude.{◌≡◌, ℕ, List, [], IfOk, IsOk, OnErr, OnOk};
ghost use Rattle.target_code.specs.declared.tree.Proc.{Proc};
ghost use Rattle.target_meaning.specs.declared.stack.Frames.{Frames};
ghost use Rattle.target_meaning.specs.Leaf as leaf;
ghost use Rattle.target_meaning.specs.Machine as machine;
ghost use Rattle.target_meaning.specs.Memories.{heap_of};
ghost use Rattle.target_meaning.specs.Stacks.{stack_of};
ghost use Rattle.target_meaning.specs.Turns.{run_of, PlainNext, wait_of, filled_stack, moved_stack};
ghost use Rattle.target_meaning.specs.Trees.{Answers, IsFork, IsLeaf, leaf_at, root_stack, tree_of};

use crate::advance::{advance, rejoin};
use crate::answer::StepAnswer;
use crate::frame::{Then, Todo};
use crate::memory::{Claimed, Memory};
use crate::path::Side;
use crate::stack::{Frames, Stack};
use sqlite_items::Items;
use std::alloc::{AllocError, Global};
use std::mem;
use target_code::Proc;

/// The fork tree. A fork keeps the frames that wait for its branches.
#[derive(Drop)]
pub enum Tree {
    /// A leaf.
    Leaf(Stack),
    /// A fork: the left child, the frames that wait at their `par`, the right child.
    Fork(Box<Tree>, Frames, Box<Tree>),
}

/// Puts a word into a register of the innermost frame, and goes on.
pub fn fill(stack: &mut Stack, then: Then, word: u64)
    ensures { stack.new ≡ filled_stack stack.old then word }
{
    if let Stack::Run(frames) = stack {
        frames.top.fill(then, word);
    }
}

/// Goes on with the innermost frame at an index.
pub fn go_on(stack: &mut Stack, next: usize)
    ensures { stack.new ≡ moved_stack stack.old next }
{
    if let Stack::Run(frames) = stack {
        frames.top.go_on(next);
    }
}

/// Makes a leaf a fork of two leaves.
fn fork(alloc: Global, tree: &mut Tree, left: Frames, right: Frames) -> Result<(), AllocError>
    ensures ok { OnOk result ((procs : List Proc) (fs : Frames) → tree.old ≡ Tree.Leaf (Stack.Run fs) →
        tree_of procs tree.new ≡ machine.Fork tt (wait_of procs fs) (machine.Leaf tt (run_of procs left))
        (machine.Leaf tt (run_of procs right))) }
    ensures err { OnErr result (tree.new ≡ tree.old) }
{
    let left = Box::new(alloc, Tree::Leaf(Stack::Run(left)))?;
    let right = Box::new(alloc, Tree::Leaf(Stack::Run(right)))?;
    let old = mem::replace(tree, Tree::Leaf(Stack::End(Items::new(alloc))));
    *tree = match old {
        Tree::Leaf(Stack::Run(frames)) => Tree::Fork(left, frames, right),
        other => other,
    };
    Ok(())
}

/// Joins a fork whose branches have both ended.
fn join(alloc: Global, procs: &[Proc], tree: &mut Tree) -> StepAnswer
    ensures { (h : machine.Heap) (name : ℕ) → IsFork tree.old →
        Answers result (machine.move machine.nothing machine.has_room procs.now (tree_of procs.now tree.old) h
        [] name) (tree_of procs.now tree.new) (tree_of procs.now tree.old) h h }
{
    let Tree::Fork(left, frames, right) = tree else {
        return StepAnswer::NoSuchLeaf;
    };
    let (Tree::Leaf(Stack::End(first)), Tree::Leaf(Stack::End(second))) = (&**left, &**right) else {
        return StepAnswer::NoSuchLeaf;
    };
    rejoin(procs, frames, first.as_slice(), second.as_slice());
    let old = mem::replace(tree, Tree::Leaf(Stack::End(Items::new(alloc))));
    if let Tree::Fork(_, frames, _) = old {
        *tree = Tree::Leaf(Stack::Run(frames));
    }
    StepAnswer::Moved
}

/// One step of a leaf that is not below the tree's root.
fn step_leaf(
    alloc: Global,
    procs: &[Proc],
    tree: &mut Tree,
    memory: &mut Memory,
    name: u64,
) -> Result<StepAnswer, AllocError>
    ensures ok { IfOk result (λ answer. IsLeaf tree.old →
        Answers answer (machine.move machine.nothing machine.has_room procs.now (tree_of procs.now tree.old)
        (heap_of memory.old) [] name) (tree_of procs.now tree.new) (tree_of procs.now tree.old)
        (heap_of memory.new) (heap_of memory.old)) }
    ensures plain { PlainNext (root_stack (tree_of procs.now tree.old)) → IsOk result }
    ensures tree { OnErr result (tree_of procs.now tree.new ≡ tree_of procs.now tree.old) }
    ensures heap { OnErr result (heap_of memory.new ≡ heap_of memory.old) }
{
    let Tree::Leaf(stack) = tree else {
        return Ok(StepAnswer::NoSuchLeaf);
    };
    match advance(alloc, procs, stack)? {
        Todo::Gone => Ok(StepAnswer::Moved),
        Todo::Read { block, index, then } => match memory.load(block, index) {
            Ok(word) => {
                fill(stack, then, word);
                Ok(StepAnswer::Moved)
            }
            Err(reason) => Ok(StepAnswer::Stuck(reason)),
        },
        Todo::Write {
            block,
            index,
            value,
            next,
        } => match memory.store(block, index, value) {
            Ok(()) => {
                go_on(stack, next);
                Ok(StepAnswer::Moved)
            }
            Err(reason) => Ok(StepAnswer::Stuck(reason)),
        },
        Todo::Make { len, then } => match memory.claim(alloc, len, name)? {
            Claimed::Made => {
                fill(stack, then, name);
                Ok(StepAnswer::Moved)
            }
            Claimed::NoRoom => Ok(StepAnswer::Full),
            Claimed::Used => Ok(StepAnswer::NameUsed),
        },
        Todo::Cut { block, next } => match memory.free(block) {
            Ok(()) => {
                go_on(stack, next);
                Ok(StepAnswer::Moved)
            }
            Err(reason) => Ok(StepAnswer::Stuck(reason)),
        },
        Todo::Split { left, right } => {
            fork(alloc, tree, left.frames, right.frames)?;
            Ok(StepAnswer::Moved)
        }
        Todo::Over => Ok(StepAnswer::NoSuchLeaf),
        Todo::Bad(reason) => Ok(StepAnswer::Stuck(reason)),
    }
}

/// One step at a path.
pub fn walk(
    alloc: Global,
    procs: &[Proc],
    tree: &mut Tree,
    memory: &mut Memory,
    path: &[Side],
    name: u64,
) -> Result<StepAnswer, AllocError>
    ensures ok { IfOk result (λ answer. Answers answer
        (machine.move machine.nothing machine.has_room procs.now (tree_of procs.now tree.old)
        (heap_of memory.old) path.now name) (tree_of procs.now tree.new) (tree_of procs.now tree.old)
        (heap_of memory.new) (heap_of memory.old)) }
    ensures plain { PlainNext (leaf_at (tree_of procs.now tree.old) path.now) → IsOk result }
    ensures tree { OnErr result (tree_of procs.now tree.new ≡ tree_of procs.now tree.old) }
    ensures heap { OnErr result (heap_of memory.new ≡ heap_of memory.old) }
{
    let [side, rest @ ..] = path else {
        return match tree {
            Tree::Leaf(_) => step_leaf(alloc, procs, tree, memory, name),
            Tree::Fork(..) => Ok(join(alloc, procs, tree)),
        };
    };
    match tree {
        Tree::Leaf(_) => Ok(StepAnswer::NoSuchLeaf),
        Tree::Fork(left, _, right) => match side {
            Side::Left => walk(alloc, procs, left, memory, rest, name),
            Side::Right => walk(alloc, procs, right, memory, rest, name),
        },
    }
}
