//! A leaf under way, and the size of its stack.

ghost use Rattle.std.specs.Prelude.{◌≡◌, [], IfOk, List};
ghost use Rattle.branch_exec.specs.Leaves.{IsSized, Weighs, top_of, waiting_of};
ghost use Rattle.target_code.specs.declared.tree.Proc.{Proc};
ghost use Rattle.target_meaning.specs.declared.stack.Stack.TheVariants as stack;

use target_meaning::path::Path;
use target_meaning::stack::{Frames, Stack};

/// How many frames a leaf may have.
const FRAMES: usize = 10_000;
/// How many registers its frames may have together.
const REGISTERS: u64 = 16_777_216;

/// A leaf: its frames or results, its path from the root, its count of steps and its budget.
#[derive(Drop)]
pub struct Leaf {
    /// Its frames, or its results once it has ended.
    pub stack: Stack,
    /// How many registers the frames have together that wait at a call.
    pub waiting: u64,
    /// Its path from the root.
    pub path: Path,
    /// How many steps it made on its path of forks and joins.
    pub done: u64,
    /// How many it may make.
    pub budget: u64,
}

impl Leaf {
    /// A leaf that begins with one frame.
    pub fn new(frames: Frames, path: Path, done: u64, budget: u64) -> Leaf
        requires { frames.below.items ≡ [] }
        ensures stack { result.stack ≡ stack.Run frames }
        ensures sized { (procs : List Proc) → IsSized procs result.stack result.waiting }
        ensures path { result.path ≡ path }
        ensures done { result.done ≡ done }
        ensures budget { result.budget ≡ budget }
    {
        Leaf {
            stack: Stack::Run(frames),
            waiting: 0,
            path,
            done,
            budget,
        }
    }
}

/// How many frames of a stack wait.
pub fn waiting_frames(stack: &Stack) -> usize
    ensures { result ≡ waiting_of stack.now }
{
    match stack {
        Stack::Run(frames) => frames.below.len(),
        Stack::End(_) => 0,
    }
}

/// How many registers the innermost frame of a stack has.
pub fn top_registers(stack: &Stack) -> usize
    ensures { result ≡ top_of stack.now }
{
    match stack {
        Stack::Run(frames) => frames.top.regs.len(),
        Stack::End(_) => 0,
    }
}

/// How many registers wait after a step from a stack in which so many frames waited, of which the innermost one had so
/// many registers, and in which so many registers waited. None: the step was a call that passed a limit.
pub fn weigh(stack: &Stack, below: usize, held: usize, waiting: u64) -> Option<u64>
    ensures { Weighs result stack.now below held waiting }
{
    let Stack::Run(frames) = stack else {
        return Some(waiting);
    };
    let now = frames.below.len();
    let registers = frames.top.regs.len() as u64;
    if now > below {
        let waiting = waiting.saturating_add(held as u64);
        let deep = now >= FRAMES || registers.saturating_add(waiting) > REGISTERS;
        return if deep { None } else { Some(waiting) };
    }
    if now < below {
        Some(waiting.saturating_sub(registers))
    } else {
        Some(waiting)
    }
}
