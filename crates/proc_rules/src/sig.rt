//! What procedures take and give.

ghost use Rattle.std.specs.Prelude.{◌≡◌};
ghost use Rattle.nres_core.specs.FlatTree.{flat_proc_of};
ghost use Rattle.proc_rules.specs.Calls.{declared, sig_view};

use nres_core::FlatFun;
use target_code::{InParam, Name, Rep};

/// What a procedure takes and gives.
#[derive(Clone, Copy)]
pub struct Sig<'a> {
    /// Its name.
    pub name: &'a Name,
    /// The declared parameters.
    pub params: &'a [InParam],
    /// The representations of the declared results.
    pub outs: &'a [Rep],
}

/// The declared parameters and results of a procedure. Takes no memory.
pub fn sig_of(fun: &FlatFun) -> Sig<'_>
    ensures { sig_view result ≡ declared (flat_proc_of fun.now) }
{
    Sig {
        name: &fun.name,
        params: fun.params.as_slice(),
        outs: fun.shown.as_slice(),
    }
}
