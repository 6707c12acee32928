//! The trees of target programs.

ghost use Rattle.std.specs.Prelude.{◌≡◌};
ghost use Rattle.target_code.specs.Reps.{width};

use crate::name::Name;
use sqlite_items::Items;

/// How a value lies in registers and a block.
#[derive(Clone, Copy, PartialEq, Eq, Debug)]
pub enum Rep {
    /// A number in one register.
    Word,
    /// A truth value in one register, 0 or 1.
    Flag,
    /// A list in a block of its length.
    Array,
    /// A range of a block that someone else owns.
    Slice,
    /// A list in the front of a block that may be longer.
    Vec,
    /// A set of numbers below a bound, one bit each.
    Bits(u32),
    /// A set in a hash table.
    Hset,
    /// A map from numbers below a bound, two words each.
    Amap(u32),
    /// A map in a hash table.
    Hmap,
    /// A multiset in a binary heap.
    Heap,
}

impl Rep {
    /// The number of registers that hold a value in this representation, from 1 to 4.
    pub fn width(self) -> usize
        ensures { result ≡ width self }
    {
        match self {
            Rep::Word | Rep::Flag => 1,
            Rep::Bits(_) | Rep::Amap(_) => 2,
            Rep::Array | Rep::Slice | Rep::Vec | Rep::Heap => 3,
            Rep::Hset | Rep::Hmap => 4,
        }
    }
}

/// An input of a program.
#[derive(Drop)]
pub struct InParam {
    /// The name under which a value is given.
    pub name: Name,
    /// How the value lies in the first registers of `main`.
    pub rep: Rep,
    /// Whether the block is given back unchanged.
    pub kept: bool,
}

/// A program: what it takes, what it gives, and its procedures, `main` first.
#[derive(Drop)]
pub struct Program {
    /// The inputs, in the order of their registers.
    pub ins: Items<InParam>,
    /// The representations of the results.
    pub outs: Items<Rep>,
    /// The procedures.
    pub procs: Items<Proc>,
}

/// A procedure.
#[derive(Drop)]
pub struct Proc {
    /// Its name.
    pub name: Name,
    /// How many arguments it takes, in its first registers.
    pub args: u32,
    /// How many registers it has.
    pub regs: u32,
    /// What it does.
    pub code: Code,
    /// The registers that it gives at its end.
    pub ret: Items<u32>,
}

/// What a calculation does with two words; a comparison gives 1 or 0.
#[derive(Clone, Copy, PartialEq, Eq)]
pub enum Calc {
    /// The sum, modulo 2^64.
    Add,
    /// The difference, modulo 2^64.
    Sub,
    /// The product, modulo 2^64.
    Mul,
    /// The quotient, stuck where the divisor is 0.
    Div,
    /// The remainder, stuck where the divisor is 0.
    Mod,
    /// The smaller word.
    Min,
    /// The greater word.
    Max,
    /// Whether the left word is below the right one.
    Lt,
    /// Whether the left word is at most the right one.
    Le,
    /// Whether the words are equal.
    Eq,
    /// Whether the words differ.
    Ne,
    /// The bits that both words have.
    And,
    /// The bits that a word has.
    Or,
    /// The bits that one word alone has.
    Xor,
    /// The left word moved up by so many bits, stuck from 64 on.
    Shl,
    /// The left word moved down by so many bits, stuck from 64 on.
    Shr,
}

/// A list of instructions.
#[cycle(code)]
#[derive(Drop)]
pub struct Code {
    /// The instructions, in order.
    pub list: Items<Instr>,
}

/// An instruction. Fields that are numbers of registers count from 0.
#[cycle(code)]
#[derive(Drop)]
pub enum Instr {
    /// Puts a number into a register.
    Const {
        to: u32,
        value: u64,
    },
    /// Puts one register's word into another.
    Mov {
        to: u32,
        from: u32,
    },
    /// Puts the answer of a calculation into a register.
    Calc {
        to: u32,
        word: Calc,
        left: u32,
        right: u32,
    },
    /// Reads a word of a block.
    Load {
        to: u32,
        block: u32,
        index: u32,
    },
    /// Writes a word of a block.
    Store {
        block: u32,
        index: u32,
        value: u32,
    },
    /// Claims a block of zeros, and puts its name into a register.
    Alloc {
        to: u32,
        len: u32,
    },
    /// Ends a block.
    Free {
        block: u32,
    },
    /// Goes on with `yes` where the register is not 0, else with `no`.
    If {
        test: u32,
        yes: Code,
        no: Code,
    },
    /// Runs `cond`, leaves where the register is 0, else runs `body` and begins again.
    While {
        cond: Code,
        test: u32,
        body: Code,
    },
    /// Calls a procedure, and puts its results into registers.
    Call {
        to: Items<u32>,
        proc: Name,
        args: Items<u32>,
    },
    /// Runs two procedures side by side, and puts the results of both into registers.
    Par {
        left: Branch,
        right: Branch,
    },
}

/// One side of a `par`: the procedure that it calls, and what it is handed and lent.
#[derive(Drop)]
pub struct Branch {
    /// The registers for its results.
    pub to: Items<u32>,
    /// The procedure.
    pub proc: Name,
    /// The registers of its arguments.
    pub args: Items<u32>,
    /// What it gets whole.
    pub hands: Items<Hand>,
    /// What it gets a share of.
    pub lends: Items<Hand>,
}

/// A block that a branch gets: all of it, or the words of a span, given by the registers of its offset and its count.
#[derive(Clone, Copy, PartialEq, Eq)]
pub struct Hand {
    /// The register of the block's name.
    pub block: u32,
    /// The registers of the span's offset and count; `None` is the whole block and its name.
    pub span: Option<(u32, u32)>,
}

/// A value as it lies in registers and a block. The first register of a container is the block's name.
#[derive(Drop)]
pub struct Image {
    /// The words of the registers.
    pub regs: Items<u64>,
    /// The words of the block, where there is one.
    pub block: Option<Items<u64>>,
}
