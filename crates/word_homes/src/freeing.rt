//! Blocks of containers are freed.

ghost use Rattle.std.specs.Prelude.{◌≡◌, ◌++◌, OnOk};
ghost use Rattle.word_homes.specs.Words.{frees_at};

use crate::moving::reg_of;
use prints::Home;
use sqlite_items::Items;
use std::alloc::AllocError;
use target_code::Instr;

/// The blocks of containers with these homes are freed.
pub fn frees(code: &mut Items<Instr>, homes: &[Home]) -> Result<(), AllocError>
    ensures { OnOk result (code.new ≡ code.old ++ frees_at homes.now) }
{
    'each: for home in homes {
        code.push(Instr::Free {
            block: reg_of(*home),
        })?;
    }
    Ok(())
}
