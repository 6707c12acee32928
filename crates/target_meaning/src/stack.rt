//! The stack of a leaf.

use crate::place::Outer;
use sqlite_items::Items;

/// A procedure under way: its number, a place in its code, and its registers.
#[derive(Drop)]
pub struct Frame {
    /// The procedure's number in the program, from 0.
    pub proc: usize,
    /// The inner codes around the place, the outermost first.
    pub outer: Items<Outer>,
    /// The index of the next instruction in the innermost code. A frame that waits stands at its `call` or `par`.
    pub at: usize,
    /// The registers.
    pub regs: Items<u64>,
}

/// The innermost frame, and those that wait at a call, the outermost first.
#[derive(Drop)]
pub struct Frames {
    /// The innermost frame.
    pub top: Frame,
    /// The frames that wait.
    pub below: Vec<Frame>,
}

/// The stack of a leaf: its frames, or its results once it has ended.
#[derive(Drop)]
pub enum Stack {
    /// The leaf is under way.
    Run(Frames),
    /// It has ended with these results.
    End(Items<u64>),
}
