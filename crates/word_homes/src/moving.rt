//! Words come to registers that follow one another.

ghost use Rattle.std.specs.Prelude.{◌≡◌, ◌++◌, IfOk, OnOk};
ghost use Rattle.prints.specs.Homes as h;

use crate::registers::behind;
use prints::Home;
use sqlite_items::Items;
use std::alloc::{AllocError, Global};
use target_code::Instr;

/// A word comes to a register, unless it stands there.
fn move_word(code: &mut Items<Instr>, to: u32, home: Home) -> Result<(), AllocError>
    ensures { OnOk result (code.new ≡ code.old ++ h.move to home) }
{
    match home {
        Home::Register(from) if from == to => Ok(()),
        Home::Register(from) => code.push(Instr::Mov { to, from }),
        Home::Literal(value) => code.push(Instr::Const { to, value }),
    }
}

/// Words come to registers from this one on.
pub fn moves(code: &mut Items<Instr>, to: u32, words: &[Home]) -> Result<(), AllocError>
    ensures { OnOk result (code.new ≡ code.old ++ h.moves to words.now) }
{
    let mut next = to;
    'each: for word in words {
        move_word(code, next, *word)?;
        next = behind(next, 1)?;
    }
    Ok(())
}

/// Words come to registers from `low` on; what stands in one that is written before is saved first, in registers from `free` on. Gives
/// the first that is free then.
pub fn turns(
    alloc: Global,
    code: &mut Items<Instr>,
    low: u32,
    free: u32,
    words: &[Home],
) -> Result<u32, AllocError>
    ensures code { OnOk result (code.new ≡ code.old ++ h.turns low free words.now) }
    ensures free { IfOk result (λ next. next ≡ h.saves_free low low free words.now) }
{
    let mut saved = Items::new(alloc);
    let next = save(code, &mut saved, low, free, words)?;
    moves(code, low, saved.as_slice())?;
    Ok(next)
}

/// What would be written before it is moved is saved.
fn save(
    code: &mut Items<Instr>,
    saved: &mut Items<Home>,
    low: u32,
    free: u32,
    words: &[Home],
) -> Result<u32, AllocError>
    ensures code { OnOk result (code.new ≡ code.old ++ h.saves low low free words.now) }
    ensures saved { OnOk result (saved.new ≡ saved.old ++ h.saved low low free words.now) }
    ensures free { IfOk result (λ next. next ≡ h.saves_free low low free words.now) }
{
    let mut to = low;
    let mut next = free;
    'each: for word in words {
        if is_hit(low, to, *word) {
            code.push(Instr::Mov {
                to: next,
                from: reg_of(*word),
            })?;
            saved.push(Home::Register(next))?;
            next = behind(next, 1)?;
        } else {
            saved.push(*word)?;
        }
        to = behind(to, 1)?;
    }
    Ok(next)
}

/// Whether a word stands in one of the registers that were written.
fn is_hit(low: u32, to: u32, home: Home) -> bool
    ensures { result ≡ h.is_hit low to home }
{
    match home {
        Home::Register(reg) => low <= reg && reg < to,
        Home::Literal(_) => false,
    }
}

/// The register of what stands in one.
pub fn reg_of(home: Home) -> u32
    ensures { result ≡ h.reg_of home }
{
    match home {
        Home::Register(reg) => reg,
        Home::Literal(_) => 0,
    }
}
