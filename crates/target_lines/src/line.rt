//! One line of a program's text.

use sqlite_items::Items;
use target_code::{Calc, InParam, Instr, Name, Rep};

/// A line.
#[derive(Drop)]
pub struct Line {
    /// How many levels of two spaces stand in front.
    pub level: u64,
    /// What stands behind them.
    pub phrase: Phrase,
}

/// What stands on a line behind its spaces.
#[derive(Drop)]
pub enum Phrase {
    /// The first line of a text. Where `lends`, each `par` line has its lends.
    Sepref { lends: bool },
    /// An input.
    In(InParam),
    /// A result.
    Out(Rep),
    /// The first line of a procedure.
    Proc { name: Name, args: u32, regs: u32 },
    /// An instruction that takes one line.
    Plain(Instr),
    /// The first line of an `if`, whose test is in the register.
    If(u32),
    /// The line between the blocks of an `if`.
    Else,
    /// The first line of a `while`.
    While,
    /// The line between the blocks of a `while`, with the register of its test.
    Do(u32),
    /// The results of a procedure.
    Ret(Items<u32>),
    /// The end of a procedure, an `if` or a `while`.
    End,
}

/// The words with which phrases begin, and those behind ` = `.
#[derive(Clone, Copy)]
pub enum Keyword {
    Sepref,
    In,
    Out,
    Proc,
    Const,
    Mov,
    Calc(Calc),
    Load,
    Store,
    Alloc,
    Free,
    If,
    Else,
    While,
    Do,
    Call,
    Par,
    Ret,
    End,
}
