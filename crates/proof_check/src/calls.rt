//! The names that code calls.

ghost use Rattle.std.specs.Prelude.{◌≡◌, ◌++◌, IfOk, OnOk};
ghost use Rattle.unfit_line.specs.Tests.{calls_of, code_calls, instr_calls};
ghost use Rattle.proof_check.specs.Whole.{seen};

use std::alloc::{AllocError, Global};
use target_code::{Code, Instr, Proc};

/// Adds the names that code calls, also inside blocks, in order.
#[cycle(calls)]
pub(crate) fn in_code<'a>(code: &'a Code, names: &mut Vec<&'a [u8]>) -> Result<(), AllocError>
    ensures { OnOk result (seen names.new.items ≡ seen names.old.items ++ code_calls code.now) }
{
    'each: for item in code.list.as_slice() {
        in_instr(item, names)?;
    }
    Ok(())
}

#[cycle(calls)]
fn in_instr<'a>(instr: &'a Instr, names: &mut Vec<&'a [u8]>) -> Result<(), AllocError>
    ensures { OnOk result (seen names.new.items ≡ seen names.old.items ++ instr_calls instr.now) }
{
    match instr {
        Instr::If { yes, no, .. } => {
            in_code(yes, names)?;
            in_code(no, names)
        }
        Instr::While { cond, body, .. } => {
            in_code(cond, names)?;
            in_code(body, names)
        }
        Instr::Call { proc, .. } => {
            names.push(proc.bytes())?;
            Ok(())
        }
        _ => Ok(()),
    }
}

/// The names that procedures call.
pub(crate) fn in_procs<'a>(alloc: Global, procs: &'a [Proc]) -> Result<Vec<&'a [u8]>, AllocError>
    ensures { IfOk result (λ names. seen names.items ≡ calls_of procs.now) }
{
    let mut names = Vec::new(alloc);
    'each: for proc in procs {
        in_code(&proc.code, &mut names)?;
    }
    Ok(names)
}
