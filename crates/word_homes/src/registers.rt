//! Registers that follow one another.

ghost use Rattle.std.specs.Prelude.{◌≡◌, ◌+◌, ◌++◌, IfOk, OnOk};
ghost use Rattle.ownership.specs.Entries.{shapes_of};
ghost use Rattle.prints.specs.Homes as h;

use ownership::Shape;
use sqlite_items::Items;
use std::alloc::{AllocError, Global};

/// So many registers on. There is no room for 2^32 registers.
pub fn behind(register: u32, count: usize) -> Result<u32, AllocError>
    ensures { IfOk result (λ next. next ≡ register + count) }
{
    let count = u32::try_from(count).or(Err(AllocError))?;
    register.checked_add(count).ok_or(AllocError)
}

/// So many registers from this one on, behind others.
pub fn span(regs: &mut Items<u32>, first: u32, count: usize) -> Result<(), AllocError>
    ensures { OnOk result (regs.new ≡ regs.old ++ h.span first count) }
{
    let mut next = first;
    'each: for _ in 0..count {
        regs.push(next)?;
        next = behind(next, 1)?;
    }
    Ok(())
}

/// The registers of values of these shapes, from this one on.
pub fn regs_all(alloc: Global, first: u32, shapes: &[Shape]) -> Result<Items<u32>, AllocError>
    ensures { IfOk result (λ regs. regs ≡ h.regs_all first (shapes_of shapes.now)) }
{
    let mut regs = Items::new(alloc);
    let mut next = first;
    'each: for shape in shapes {
        let width = shape.rep.width();
        span(&mut regs, next, width)?;
        next = behind(next, width)?;
    }
    Ok(regs)
}

/// The register behind those of values of these shapes, which begin at this one.
pub fn free_after(first: u32, shapes: &[Shape]) -> Result<u32, AllocError>
    ensures { IfOk result (λ next. next ≡ h.free_after first (shapes_of shapes.now)) }
{
    let mut next = first;
    'each: for shape in shapes {
        next = behind(next, shape.rep.width())?;
    }
    Ok(next)
}
