//! The values that hold where a condition does.

ghost use Rattle.std.specs.Prelude.{◌≡◌, ◌++◌, ℕ, nat_eq, OnOk};
ghost use Rattle.indexmap.specs.IndexSet.{contains};
ghost use Rattle.facts.specs.Kept.{told_of};
ghost use Rattle.facts.specs.Wants.{also_if, parts_if};
ghost use Rattle.rule_check.specs.Facts.{compared, told_by};

use crate::calculations::Calculation;
use crate::known::Fact;
use indexmap::IndexSet;
use nres_core::Arg;
use std::alloc::AllocError;
use target_code::Calc;

/// Notes that a value holds.
pub(crate) fn want(wanted: &mut IndexSet<u32>, arg: Arg) -> Result<(), AllocError>
    ensures { OnOk result ((v : ℕ) → contains nat_eq wanted.new v ≡ also_if arg (contains nat_eq wanted.old) v) }
{
    if let Arg::Var(var) = arg {
        wanted.insert(var)?;
    }
    Ok(())
}

/// Notes what a calculation that holds tells: a bound, or that its two parts hold.
pub(crate) fn tell(
    calculation: &Calculation,
    wanted: &mut IndexSet<u32>,
    found: &mut Vec<Fact>,
) -> Result<(), AllocError>
    ensures found { OnOk result (told_of found.new.items ≡ told_of found.old.items ++ told_by calculation.now.word calculation.now.left calculation.now.right) }
    ensures wanted { OnOk result ((v : ℕ) → contains nat_eq wanted.new v ≡ parts_if calculation.now.word calculation.now.left calculation.now.right (contains nat_eq wanted.old) v) }
{
    match calculation.word {
        Calc::And => {
            want(wanted, calculation.right)?;
            want(wanted, calculation.left)
        }
        Calc::Lt => compared(calculation.left, calculation.right, found),
        _ => Ok(()),
    }
}

/// Notes what a comparison that holds tells.
fn compared(left: Arg, right: Arg, found: &mut Vec<Fact>) -> Result<(), AllocError>
    ensures { OnOk result (told_of found.new.items ≡ told_of found.old.items ++ compared left right) }
{
    match (left, right) {
        (Arg::Var(var), Arg::Num(bound)) => {
            found.push(Fact { var, bound })?;
            Ok(())
        }
        _ => Ok(()),
    }
}
