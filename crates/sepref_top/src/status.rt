//! How a run ended.

ghost use Rattle.std.specs.Prelude.{◌≡◌};

use nres_core::Place;

/// How a run of the program ended. Each status but `Done`, `WriteFault` and `Memory` has written its line.
#[derive(Clone, Copy)]
pub enum Status {
    /// The output was written whole.
    Done,
    /// The words are no command line.
    Usage,
    /// The input is no specification, or what stands behind a program is no list of values: this is the first place at which
    /// none can go on.
    Syntax(Place),
    /// The same, where a limit alone is at fault.
    TooDeep(Place),
    /// The specification is not typed; the line tells where and why.
    Type_,
    /// The rules refuse the specification; the line tells where and why.
    NoRule,
    /// The values are not those of the parameters; the line tells of which and why.
    Input,
    /// What stands before the values is the text of no program: this line is refused.
    NotProgram(u64),
    /// The source gave more than 1,048,576 bytes.
    TooLong,
    /// The program fits the specification by no such derivation: this line is told, counted from the derivation's first.
    NoProof(u64),
    /// The path of the first choices fails at a line.
    Fails(u64),
    /// The path of the first choices would begin one turn too many of the loop at a line, or make the call at a line inside too many
    /// calls.
    OutOfTurns(u64),
    /// A read failed.
    ReadFault,
    /// A write failed; what went out is a front of what was to be written.
    WriteFault,
    /// There was no memory. Nothing was written.
    Memory,
    /// What was asked for is not built yet.
    NotYet,
}

impl Status {
    ghost use Rattle.sepref_top.specs.Statuses.{code_of, line_of, HasFixedLine};

    /// The number with which the program ends.
    pub fn code(self) -> u8
        ensures { result ≡ code_of self }
    {
        match self {
            Status::Done => 0,
            Status::Usage => 1,
            Status::Syntax(_) | Status::TooDeep(_) => 2,
            Status::Type_ => 3,
            Status::NoRule => 4,
            Status::Input => 5,
            Status::NotProgram(_) => 9,
            Status::TooLong => 11,
            Status::Fails(_) => 14,
            Status::OutOfTurns(_) => 15,
            Status::NoProof(_) => 16,
            Status::ReadFault => 20,
            Status::WriteFault => 21,
            Status::Memory => 30,
            Status::NotYet => 40,
        }
    }

    /// The line that tells it, with its line feed, where the line says nothing of the input; else nothing.
    pub(crate) fn fixed_line(self) -> &'static [u8]
        ensures { HasFixedLine self → result.now ≡ line_of self }
    {
        match self {
            Status::Usage => b"! usage\n",
            Status::TooLong => b"! too long\n",
            Status::ReadFault => b"! read fault\n",
            Status::NotYet => b"! not yet\n",
            _ => b"",
        }
    }
}
