//! Literals come to registers.

ghost use Rattle.std.specs.Prelude.{◌≡◌, ◌++◌, IfOk, OnOk};
ghost use Rattle.prints.specs.Homes as h;

use crate::registers::behind;
use prints::Home;
use sqlite_items::Items;
use std::alloc::{AllocError, Global};
use target_code::Instr;

/// A word in a register, and the first register that is free then.
#[derive(Clone, Copy)]
pub struct Loaded {
    /// The register.
    pub reg: u32,
    /// The first that is free.
    pub free: u32,
}

/// Words in registers, and the first register that is free then.
#[derive(Drop)]
pub struct LoadedAll {
    /// The registers.
    pub regs: Items<u32>,
    /// The first that is free.
    pub free: u32,
}

/// A word comes to a register, where it is a literal to the first free one.
pub fn load(code: &mut Items<Instr>, free: u32, home: Home) -> Result<Loaded, AllocError>
    ensures code { OnOk result (code.new ≡ code.old ++ h.load free home) }
    ensures reg { IfOk result (λ loaded. loaded.reg ≡ h.load_reg free home) }
    ensures free { IfOk result (λ loaded. loaded.free ≡ h.load_free free home) }
{
    match home {
        Home::Register(reg) => Ok(Loaded { reg, free }),
        Home::Literal(value) => {
            let next = behind(free, 1)?;
            code.push(Instr::Const { to: free, value })?;
            Ok(Loaded {
                reg: free,
                free: next,
            })
        }
    }
}

/// Words come to registers, the literals among them to the first free ones.
pub fn loads(
    alloc: Global,
    code: &mut Items<Instr>,
    free: u32,
    homes: &[Home],
) -> Result<LoadedAll, AllocError>
    ensures code { OnOk result (code.new ≡ code.old ++ h.loads free homes.now) }
    ensures regs { IfOk result (λ loaded. loaded.regs ≡ h.loads_regs free homes.now) }
    ensures free { IfOk result (λ loaded. loaded.free ≡ h.loads_free free homes.now) }
{
    let mut regs = Items::new(alloc);
    let mut next = free;
    'each: for home in homes {
        let loaded = load(code, next, *home)?;
        regs.push(loaded.reg)?;
        next = loaded.free;
    }
    Ok(LoadedAll { regs, free: next })
}
