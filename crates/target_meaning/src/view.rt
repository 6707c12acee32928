//! What is seen of the leaves of a state: where each stands and what it is next to do.

ghost use Rattle.std.specs.Prelude.{◌≡◌, ◌+◌, ◌++◌, [], ℕ, suc, length, List, IfOk, OnOk};
ghost use Rattle.std.specs.Option.{option_copied};
ghost use Rattle.target_code.specs.declared.tree.Instr.{out-Instr};
ghost use Rattle.target_code.specs.declared.tree.Proc.{Proc};
ghost use Rattle.target_meaning.specs.Leaf as leaf;
ghost use Rattle.target_meaning.specs.Lines.{counted};
ghost use Rattle.target_meaning.specs.Machine.{Heap, words_of};
ghost use Rattle.target_meaning.specs.Memories.{heap_of};
ghost use Rattle.target_meaning.specs.Place.{items_at};
ghost use Rattle.target_meaning.specs.Settled.{Settled};
ghost use Rattle.target_meaning.specs.Stacks.{callers_of, code_at, frame_of, proc_at};
ghost use Rattle.target_meaning.specs.Trees.{tree_of};
ghost use Rattle.target_meaning.specs.Turns.{run_of};
ghost use Rattle.target_meaning.specs.Views as spec;
ghost use Rattle.target_meaning.specs.declared.place.Outer.{Outer};

use crate::advance::code_of;
use crate::answer::Reason;
use crate::calc::calc;
use crate::frame::number_of;
use crate::lines::{line_at, list_lines};
use crate::memory::Memory;
use crate::path::{Path, Side};
use crate::place::{Outer, list_of};
use crate::registers::word_in;
use crate::settle::{Standing, innermost, settle};
use crate::stack::{Frame, Frames, Stack};
use crate::tree::Tree;
use sqlite_items::{Items, at};
use std::alloc::{AllocError, Global};
use target_code::{Branch, Instr, Name, Proc};

/// What a leaf is next to do, as far as races, stuck leaves and limits of depth ask for it.
#[derive(Clone, Copy)]
pub enum Next {
    /// It loads this word, which is there.
    Read {
        /// The block's name.
        block: u64,
        /// The index of the word.
        index: u64,
    },
    /// It stores to this word, which is there.
    Write {
        /// The block's name.
        block: u64,
        /// The index of the word.
        index: u64,
    },
    /// It frees this block, which is live.
    Free {
        /// The block's name.
        block: u64,
    },
    /// It is stuck.
    Stuck(Reason),
    /// It calls a procedure of so many registers.
    Call {
        /// The registers of the procedure.
        regs: u64,
    },
    /// It forks.
    Fork,
    /// It takes another step: an `alloc`, or one of registers and frames alone.
    Other,
}

/// What is seen of a leaf that has not ended.
#[derive(Drop)]
pub struct LeafView {
    /// Its path.
    pub path: Path,
    /// The procedure of its innermost frame.
    pub proc: Name,
    /// The line of what it is next to do, counted from 0 at the `proc` line of the procedure: of an instruction its
    /// own, of the test of a loop the `do`, at the end of the code the `ret`. The greatest word stands for more.
    pub line: u64,
    /// How many frames it has.
    pub frames: u64,
    /// How many registers these have together; the greatest word stands for more.
    pub regs: u64,
    /// What it is next to do.
    pub next: Next,
}

// ---- what comes next

/// Why a word of a block is not there, where it is not.
fn missing(memory: &Memory, block: u64, index: u64) -> Option<Reason>
    ensures { result ≡ spec.word_reason (words_of ((heap_of memory.now).cells block)) index }
{
    match memory.words(block) {
        Some(words) => {
            if (index as usize) < words.len() {
                None
            } else {
                Some(Reason::Index)
            }
        }
        None => Some(Reason::Block),
    }
}

/// Why a block cannot be freed, where it cannot.
fn missing_block(memory: &Memory, block: u64) -> Option<Reason>
    ensures { result ≡ spec.block_reason (words_of ((heap_of memory.now).cells block)) }
{
    match memory.words(block) {
        Some(_) => None,
        None => Some(Reason::Block),
    }
}

/// A leaf is stuck for this reason, or does this.
fn or_stuck(reason: Option<Reason>, next: Next) -> Next
    ensures { result ≡ spec.or_stuck reason next }
{
    match reason {
        Some(reason) => Next::Stuck(reason),
        None => next,
    }
}

/// The first procedure of a name.
fn proc_named<'a>(procs: &'a [Proc], name: &Name) -> Option<&'a Proc>
    ensures { option_copied result ≡ leaf.find procs.now name.now }
{
    at(procs, number_of(procs, name)?)
}

/// A call of this procedure, or a leaf that is stuck at it.
fn call_next(procs: &[Proc], name: &Name) -> Next
    ensures { (h : Heap) (go : Proc → leaf.Stack) → result ≡ spec.act_next h
        (leaf.with_proc (leaf.find procs.now name.now) (λ p. leaf.Go (go p)))
        (spec.proc_next (leaf.find procs.now name.now)) }
{
    match proc_named(procs, name) {
        Some(proc) => Next::Call {
            regs: u64::from(proc.regs),
        },
        None => Next::Stuck(Reason::Block),
    }
}

/// A fork into these branches, or a leaf that is stuck at it.
fn fork_next(procs: &[Proc], left: &Branch, right: &Branch) -> Next
    ensures { (h : Heap) (first second : Proc → leaf.Child) (w : leaf.Wait) → result ≡ spec.act_next h
        (leaf.with_proc (leaf.find procs.now left.now.proc) (λ p. leaf.with_proc
        (leaf.find procs.now right.now.proc) (λ q. leaf.Split (first p) (second q) w))) spec.other }
{
    if proc_named(procs, &left.proc).is_some() && proc_named(procs, &right.proc).is_some() {
        Next::Fork
    } else {
        Next::Stuck(Reason::Block)
    }
}

/// What an instruction is to a leaf that stands at it, with these registers.
fn instr_next(procs: &[Proc], memory: &Memory, regs: &[u64], instr: &Instr) -> Next
    ensures { (line : ℕ) (items : List leaf.Item) (proc : Proc) (cs : List leaf.Caller) → result ≡
        spec.act_next (heap_of memory.now)
        (leaf.instr_act procs.now line items regs.now proc cs (out-Instr instr.now))
        (spec.instr_next procs.now (out-Instr instr.now)) }
{
    match instr {
        Instr::Load { block, index, .. } => {
            let (block, index) = (word_in(regs, *block), word_in(regs, *index));
            or_stuck(missing(memory, block, index), Next::Read { block, index })
        }
        Instr::Store { block, index, .. } => {
            let (block, index) = (word_in(regs, *block), word_in(regs, *index));
            or_stuck(missing(memory, block, index), Next::Write { block, index })
        }
        Instr::Free { block } => {
            let block = word_in(regs, *block);
            or_stuck(missing_block(memory, block), Next::Free { block })
        }
        Instr::Calc {
            word,
            left,
            right,
            ..
        } => match calc(*word, word_in(regs, *left), word_in(regs, *right)) {
            Ok(_) => Next::Other,
            Err(reason) => Next::Stuck(reason),
        },
        Instr::Call { proc, .. } => call_next(procs, proc),
        Instr::Par { left, right } => fork_next(procs, left, right),
        _ => Next::Other,
    }
}

/// What a leaf is next to do that stands so, with these registers.
fn standing_next(procs: &[Proc], memory: &Memory, regs: &[u64], standing: &Standing<'_>) -> Next
    ensures { (outer : List Outer) (at number : ℕ) (cs : List leaf.Caller) →
        Settled (code_at procs.now number) standing.now outer at → result ≡
        spec.items_seen procs.now (heap_of memory.now) (items_at 1 (code_at procs.now number) outer at)
        regs.now (proc_at procs.now number) cs }
{
    match standing {
        Standing::Do(instr, _) => instr_next(procs, memory, regs, instr),
        Standing::Test(..) | Standing::Return => Next::Other,
    }
}

/// The line at which a leaf stands so.
fn standing_line(code: &[Instr], outer: &[Outer], index: usize, standing: &Standing<'_>) -> u64
    requires { Settled code.now standing.now outer.now index }
    ensures { result ≡ counted (spec.line_in code.now (items_at 1 code.now outer.now index)) }
{
    match standing {
        Standing::Do(..) => line_at(code, outer, index),
        Standing::Test(..) => match innermost(outer) {
            Some((front, level)) => line_at(code, front, level.index)
                .saturating_add(list_lines(list_of(code, outer)))
                .saturating_add(1),
            None => 0,
        },
        Standing::Return => list_lines(code).saturating_add(1),
    }
}

// ---- one leaf

/// The name of a procedure, `0` for a number that none has.
fn name_of(alloc: Global, procs: &[Proc], number: usize) -> Result<Name, AllocError>
    ensures { IfOk result (λ name. name ≡ (proc_at procs.now number).name) }
{
    match at(procs, number) {
        Some(proc) => proc.name.copy(alloc),
        None => Name::of_number(alloc, 0),
    }
}

/// How many registers frames have together that wait.
fn waiting_regs(frames: &[Frame]) -> u64
    ensures { (procs : List Proc) → result ≡
        counted (spec.callers_regs (callers_of procs frames.now [])) }
{
    let mut regs: u64 = 0;
    for frame in frames {
        regs = regs.saturating_add(frame.regs.len() as u64);
    }
    regs
}

/// The line of what a leaf that is under way is next to do, as `LeafView` has it. It takes no memory: the innermost
/// frame moves out of inner codes that are through, and what the stack shows stays the same.
pub fn line_of(procs: &[Proc], frames: &mut Frames) -> u64
    ensures line { result ≡ counted (leaf.line_of (run_of procs.now frames.old)) }
    ensures kept { run_of procs.now frames.new ≡ run_of procs.now frames.old }
{
    let top = &mut frames.top;
    let code = code_of(procs, top.proc);
    let standing = settle(code, &mut top.outer, &mut top.at);
    standing_line(code, top.outer.as_slice(), top.at, &standing)
}

/// The line of what a leaf is next to do, and what it is.
fn seen_next(
    alloc: Global,
    procs: &[Proc],
    memory: &Memory,
    top: &Frame,
) -> Result<(u64, Next), AllocError>
    ensures { IfOk result (λ seen. (cs : List leaf.Caller) → seen ≡ spec.next_seen procs.now
        (heap_of memory.now) (frame_of procs.now top.now) cs) }
{
    let code = code_of(procs, top.proc);
    let mut outer = Items::from_slice(alloc, top.outer.as_slice())?;
    let mut index = top.at;
    let standing = settle(code, &mut outer, &mut index);
    let line = standing_line(code, outer.as_slice(), index, &standing);
    let next = standing_next(procs, memory, top.regs.as_slice(), &standing);
    Ok((line, next))
}

/// What is seen of a leaf that is under way.
fn view(
    alloc: Global,
    procs: &[Proc],
    memory: &Memory,
    path: &Path,
    frames: &Frames,
) -> Result<LeafView, AllocError>
    ensures { IfOk result (λ view. view ≡ spec.view_of procs.now (heap_of memory.now) path.now
        (frame_of procs.now frames.now.top) (callers_of procs.now frames.now.below.items [])) }
{
    let (line, next) = seen_next(alloc, procs, memory, &frames.top)?;
    let regs = frames.top.regs.as_slice();
    let below = frames.below.as_slice();
    let proc = name_of(alloc, procs, frames.top.proc)?;
    let path = match path.copy(alloc) {
        Ok(path) => path,
        Err(error) => {
            drop(proc);
            return Err(error);
        }
    };
    Ok(LeafView {
        path,
        proc,
        line,
        frames: (below.len() as u64).saturating_add(1),
        regs: (regs.len() as u64).saturating_add(waiting_regs(below)),
        next,
    })
}

/// Appends what is seen of the leaves of the tree at this path, left to right.
pub fn add_leaves(
    tree: &Tree,
    alloc: Global,
    procs: &[Proc],
    memory: &Memory,
    path: &Path,
    views: &mut Vec<LeafView>,
) -> Result<(), AllocError>
    ensures { OnOk result (views.new.items ≡ views.old.items ++
        spec.leaves_of procs.now (heap_of memory.now) path.now (tree_of procs.now tree.now)) }
{
    match tree {
        Tree::Leaf(Stack::End(_)) => Ok(()),
        Tree::Leaf(Stack::Run(frames)) => {
            let view = view(alloc, procs, memory, path, frames)?;
            views.push(view)?;
            Ok(())
        }
        Tree::Fork(left, _, right) => {
            let first = path.child(alloc, Side::Left)?;
            add_leaves(left, alloc, procs, memory, &first, views)?;
            let second = path.child(alloc, Side::Right)?;
            add_leaves(right, alloc, procs, memory, &second, views)
        }
    }
}
