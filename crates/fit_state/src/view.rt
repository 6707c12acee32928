//! What is left to follow, and what is looked up.

ghost use Rattle.std.specs.Prelude.{◌≡◌};
ghost use Rattle.std.specs.Option.{option_copied};
ghost use Rattle.target_meaning.specs.Leaf.{find};

use nres_core::FlatFun;
use proof_text::ProofLine;
use target_code::{Instr, Name, Proc};

/// What is left to follow.
#[derive(Clone, Copy)]
pub struct Rest<'a> {
    /// The code.
    pub code: &'a [Instr],
    /// The lines of the derivation.
    pub lines: &'a [ProofLine],
}

/// The names of variables, the procedures of the specification, and those of the program.
#[derive(Clone, Copy)]
pub struct Views<'a> {
    /// For each variable the name to which it was first bound.
    pub names: &'a [Name],
    /// The procedures of the specification.
    pub funs: &'a [FlatFun],
    /// The procedures of the program.
    pub procs: &'a [Proc],
}

/// The first procedure of a name.
pub fn find_proc<'a>(procs: &'a [Proc], name: &[u8]) -> Option<&'a Proc>
    ensures { option_copied result ≡ find procs.now name.now }
{
    'each: for proc in procs {
        if proc.name.bytes() == name {
            return Some(proc);
        }
    }
    None
}
