//! The registers that code writes.

ghost use Rattle.std.specs.Prelude.{◌≡◌, ◌||◌, ◌++◌, ℕ, OnOk};
ghost use Rattle.fits.specs.Written.{code_writes, instr_writes, is_one_of};

use sqlite_items::Items;
use std::alloc::AllocError;
use target_code::{Code, Instr};

/// Notes the registers that code writes.
#[cycle(written)]
pub fn note_written(code: &Code, noted: &mut Items<u32>) -> Result<(), AllocError>
    ensures { OnOk result ((r : ℕ) → is_one_of r noted.new ≡ (code_writes r code.now || is_one_of r noted.old)) }
{
    'each: for instr in code.list.as_slice() {
        note_instr(instr, noted)?;
    }
    Ok(())
}

/// Notes the registers that an instruction writes.
#[cycle(written)]
fn note_instr(instr: &Instr, noted: &mut Items<u32>) -> Result<(), AllocError>
    ensures { OnOk result ((r : ℕ) → is_one_of r noted.new ≡ (instr_writes r instr.now || is_one_of r noted.old)) }
{
    match instr {
        Instr::Const { to, .. } => noted.push(*to),
        Instr::Mov { to, .. } => noted.push(*to),
        Instr::Calc { to, .. } => noted.push(*to),
        Instr::Load { to, .. } => noted.push(*to),
        Instr::Alloc { to, .. } => noted.push(*to),
        Instr::Store { .. } | Instr::Free { .. } => Ok(()),
        Instr::If { yes, no, .. } => {
            note_written(yes, noted)?;
            note_written(no, noted)
        }
        Instr::While { cond, body, .. } => {
            note_written(cond, noted)?;
            note_written(body, noted)
        }
        Instr::Call { to, .. } => note_all(noted, to.as_slice()),
        Instr::Par { left, right } => {
            note_all(noted, left.to.as_slice())?;
            note_all(noted, right.to.as_slice())
        }
    }
}

/// Notes registers, in order.
pub(crate) fn note_all(noted: &mut Items<u32>, regs: &[u32]) -> Result<(), AllocError>
    ensures { OnOk result (noted.new ≡ noted.old ++ regs.now) }
{
    'each: for reg in regs {
        noted.push(*reg)?;
    }
    Ok(())
}
