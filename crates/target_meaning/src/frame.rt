//! The instructions, one function for each kind.

ghost use Rattle.std.specs.Prelude.{◌≡◌, ◌++◌, ◌∷◌, [], ℕ, suc, List, map, MatchOption, IfOk, IsOk, OnErr, OnOk, slice_get, slice_index};
ghost use Rattle.target_meaning.specs.Leaf as leaf;
ghost use Rattle.target_meaning.specs.Place.{items_at};
ghost use Rattle.target_meaning.specs.Stacks.{callers_of, code_at, frame_of};
ghost use Rattle.target_code.specs.declared.tree.Instr.{out-Instr};
ghost use Rattle.target_code.specs.declared.tree.Proc.{Proc};
ghost use Rattle.target_meaning.specs.Settled.{AtTest};
ghost use Rattle.target_meaning.specs.Turns.{IsAt, PlainInstr, Tells, Stays, act_of, call_of, filled, moved, part_of, run_of, split_of, with_top};

use crate::answer::Reason;
use crate::calc::calc;
use crate::place::{Inner, Outer};
use crate::registers::{first_words, put, word_in, words_in};
use crate::settle::turn;
use crate::stack::{Frame, Frames};
use sqlite_items::{Items, at};
use std::alloc::{AllocError, Global};
use std::mem;
use target_code::{Branch, Hand, Instr, Name, Proc};

/// Where a word goes: its register, and the index behind the instruction.
#[derive(Clone, Copy)]
pub struct Then {
    /// The register.
    pub to: u32,
    /// The index behind the instruction.
    pub next: usize,
}

/// A part of what a leaf holds: a whole block with its name, or so many of its words from an offset on.
#[derive(Clone, Copy)]
pub struct Part {
    /// The block's name.
    pub block: u64,
    /// The offset and the count.
    pub span: Option<(u64, u64)>,
}

/// A child of a fork that starts.
#[derive(Drop)]
pub struct Starting {
    /// Its frames.
    pub frames: Frames,
    /// The parts that it is handed.
    pub hands: Vec<Part>,
    /// The parts that it is lent.
    pub lends: Vec<Part>,
}

/// What is left to do of a leaf's next step.
#[derive(Drop)]
pub enum Todo {
    /// Nothing: the step was one of registers and frames alone, and was made.
    Gone,
    /// A load, whose word goes to a register.
    Read {
        /// The block's name.
        block: u64,
        /// The index of the word.
        index: u64,
        /// Where the word goes.
        then: Then,
    },
    /// A store.
    Write {
        /// The block's name.
        block: u64,
        /// The index of the word.
        index: u64,
        /// The new word.
        value: u64,
        /// The index behind the instruction.
        next: usize,
    },
    /// An `alloc`, whose name goes to a register.
    Make {
        /// The words of the block.
        len: u64,
        /// Where the name goes.
        then: Then,
    },
    /// A `free`.
    Cut {
        /// The block's name.
        block: u64,
        /// The index behind the instruction.
        next: usize,
    },
    /// The fork, with what its two children start with; the frames at hand wait at the `par`.
    Split {
        /// The left child.
        left: Starting,
        /// The right child.
        right: Starting,
    },
    /// Nothing more: the leaf has ended.
    Over,
    /// Nothing: the leaf is stuck, whatever the heap is.
    Bad(Reason),
}

impl Frame {
    /// Goes on at an index.
    pub fn go_on(&mut self, next: usize)
        ensures { self.new ≡ moved self.old next }
    {
        self.at = next;
    }

    /// Puts a word into a register and goes on.
    pub fn fill(&mut self, then: Then, word: u64)
        ensures { self.new ≡ filled self.old then word }
    {
        put(&mut self.regs, then.to, word);
        self.at = then.next;
    }

    /// Enters an inner code of the instruction at hand.
    fn enter(&mut self, inner: Inner) -> Result<(), AllocError>
        ensures ok { OnOk result (self.new ≡ record {
          proc = self.old.proc;
          outer = self.old.outer ++ (record { index = self.old.at; inner = inner })
              ∷ [];
          at = 0;
          regs = self.old.regs;
        }) }
        ensures err { OnErr result (self.new ≡ self.old) }
    {
        let index = self.at;
        self.outer.push(Outer { index, inner })?;
        self.at = 0;
        Ok(())
    }
}

/// The number of the first procedure of a name.
pub fn number_of(procs: &[Proc], name: &Name) -> Option<usize>
    ensures { MatchOption result (leaf.find procs.now name.now ≡ None)
        (λ n. leaf.find procs.now name.now ≡ slice_get procs.now n) }
{
    for (number, proc) in procs.iter().enumerate() {
        if proc.name.bytes() == name.bytes() {
            return Some(number);
        }
    }
    None
}

/// An instruction on registers and words alone.
fn plain(frames: &mut Frames, to: u32, word: u64, next: usize) -> Todo
    ensures frames { frames.new ≡ with_top frames.old
        (filled frames.old.top (record { to = to; next = next }) word) }
    ensures gone { result ≡ Todo.Gone }
{
    frames.top.fill(Then { to, next }, word);
    Todo::Gone
}

/// The registers and words of a branch or a call, as a frame that begins.
fn begin(
    alloc: Global,
    procs: &[Proc],
    name: &Name,
    registers: &[u64],
    args: &[u32],
) -> Result<Option<Frame>, AllocError>
    ensures { IfOk result (λ made. MatchOption made (leaf.find procs.now name.now ≡ None)
        (λ frame. (p : _) × (leaf.find procs.now name.now ≡ Some p) ×
        (frame_of procs.now frame ≡ leaf.begin p (leaf.read_all registers.now args.now)))) }
{
    let Some(number) = number_of(procs, name) else {
        return Ok(None);
    };
    let Some(proc) = at(procs, number) else {
        return Ok(None);
    };
    let arguments = words_in(alloc, registers, args)?;
    Ok(Some(Frame {
        proc: number,
        outer: Items::new(alloc),
        at: 0,
        regs: first_words(arguments, proc.regs)?,
    }))
}

/// A call: the frame at hand waits at it.
fn call(
    alloc: Global,
    procs: &[Proc],
    name: &Name,
    args: &[u32],
    frames: &mut Frames,
) -> Result<Todo, AllocError>
    ensures ok { IfOk result (λ todo. Tells procs.now (call_of procs.now frames.old name.now args.now) todo
        frames.new) }
    ensures stays { IfOk result (λ todo. Stays todo (run_of procs.now frames.new)
        (run_of procs.now frames.old)) }
    ensures err { OnErr result (run_of procs.now frames.new ≡ run_of procs.now frames.old) }
{
    let Some(frame) = begin(alloc, procs, name, frames.top.regs.as_slice(), args)? else {
        return Ok(Todo::Bad(Reason::Block));
    };
    let caller = mem::replace(&mut frames.top, frame);
    match frames.below.push(caller) {
        Ok(()) => Ok(Todo::Gone),
        Err(failed) => {
            frames.top = failed.value;
            Err(AllocError)
        }
    }
}

/// The part that a hand or a lend names.
fn part_in(registers: &[u64], hand: &Hand) -> Part
    ensures { result ≡ record {
      block = slice_index registers.now hand.now.block;
      span = leaf.span_of hand.now.span registers.now;
    } }
{
    let block = word_in(registers, hand.block);
    match hand.span {
        Some((offset, count)) => Part {
            block,
            span: Some((word_in(registers, offset), word_in(registers, count))),
        },
        None => Part { block, span: None },
    }
}

/// The parts that hands or lends name.
fn parts_in(alloc: Global, registers: &[u64], hands: &[Hand]) -> Result<Vec<Part>, AllocError>
    ensures { IfOk result (λ parts. leaf.parts_of hands.now registers.now ≡ map part_of parts.items) }
{
    let mut parts = Vec::new(alloc);
    for hand in hands {
        parts.push(part_in(registers, hand))?;
    }
    Ok(parts)
}

/// A fork: the frame at hand waits at it.
fn split(
    alloc: Global,
    procs: &[Proc],
    left: &Branch,
    right: &Branch,
    frames: &Frames,
) -> Result<Todo, AllocError>
    ensures { IfOk result (λ todo. Tells procs.now (split_of procs.now frames.now left.now right.now) todo
        frames.now) }
{
    let regs = frames.top.regs.as_slice();
    let Some(first) = begin(alloc, procs, &left.proc, regs, left.args.as_slice())? else {
        return Ok(Todo::Bad(Reason::Block));
    };
    let Some(second) = begin(alloc, procs, &right.proc, regs, right.args.as_slice())? else {
        return Ok(Todo::Bad(Reason::Block));
    };
    Ok(Todo::Split {
        left: Starting {
            frames: Frames {
                top: first,
                below: Vec::new(alloc),
            },
            hands: parts_in(alloc, regs, left.hands.as_slice())?,
            lends: parts_in(alloc, regs, left.lends.as_slice())?,
        },
        right: Starting {
            frames: Frames {
                top: second,
                below: Vec::new(alloc),
            },
            hands: parts_in(alloc, regs, right.hands.as_slice())?,
            lends: parts_in(alloc, regs, right.lends.as_slice())?,
        },
    })
}

/// The test of a loop.
pub fn test(frame: &mut Frame, register: u32, next: usize)
    ensures { (procs : List Proc) (cs : List leaf.Caller) →
        AtTest (code_at procs frame.old.proc) register next frame.old.outer frame.old.at →
        leaf.act procs (leaf.Run (frame_of procs frame.old) cs) ≡
        leaf.Go (leaf.Run (frame_of procs frame.new) cs) }
{
    if word_in(frame.regs.as_slice(), register) == 0 {
        frame.outer.pop();
        frame.at = next;
    } else {
        turn(&mut frame.outer, Inner::Body);
        frame.at = 0;
    }
}

/// One instruction.
pub fn instruct(
    alloc: Global,
    procs: &[Proc],
    instr: &Instr,
    next: usize,
    frames: &mut Frames,
) -> Result<Todo, AllocError>
    requires { IsAt procs.now frames.old.top instr.now next }
    ensures ok { IfOk result (λ todo. Tells procs.now (act_of procs.now frames.old instr.now next) todo
        frames.new) }
    ensures plain { PlainInstr (out-Instr instr.now) → IsOk result }
    ensures stays { IfOk result (λ todo. Stays todo (run_of procs.now frames.new)
        (run_of procs.now frames.old)) }
    ensures err { OnErr result (run_of procs.now frames.new ≡ run_of procs.now frames.old) }
{
    let regs = frames.top.regs.as_slice();
    match instr {
        Instr::Const { to, value } => Ok(plain(frames, *to, *value, next)),
        Instr::Mov { to, from } => {
            let word = word_in(regs, *from);
            Ok(plain(frames, *to, word, next))
        }
        Instr::Calc {
            to,
            word,
            left,
            right,
        } => match calc(*word, word_in(regs, *left), word_in(regs, *right)) {
            Ok(number) => Ok(plain(frames, *to, number, next)),
            Err(reason) => Ok(Todo::Bad(reason)),
        },
        Instr::Load { to, block, index } => Ok(Todo::Read {
            block: word_in(regs, *block),
            index: word_in(regs, *index),
            then: Then { to: *to, next },
        }),
        Instr::Store {
            block,
            index,
            value,
        } => Ok(Todo::Write {
            block: word_in(regs, *block),
            index: word_in(regs, *index),
            value: word_in(regs, *value),
            next,
        }),
        Instr::Alloc { to, len } => Ok(Todo::Make {
            len: word_in(regs, *len),
            then: Then { to: *to, next },
        }),
        Instr::Free { block } => Ok(Todo::Cut {
            block: word_in(regs, *block),
            next,
        }),
        Instr::If { test, .. } => {
            let inner = if word_in(regs, *test) == 0 {
                Inner::No
            } else {
                Inner::Yes
            };
            frames.top.enter(inner)?;
            Ok(Todo::Gone)
        }
        Instr::While { .. } => {
            frames.top.enter(Inner::Cond)?;
            Ok(Todo::Gone)
        }
        Instr::Call { proc, args, .. } => call(alloc, procs, proc, args.as_slice(), frames),
        Instr::Par { left, right } => split(alloc, procs, left, right, frames),
    }
}
