//! Words, numbers and blanks.

ghost use Rattle.std.specs.Prelude.{◌≡◌, ◌≤◌, ◌++◌, decimal, OnOk};
ghost use Rattle.nres_print.specs.Spellings as spec;
ghost use Rattle.target_code.specs.Texts.{rep_text};

use nres_core::{Ty, looseness};
use std::alloc::AllocError;
use target_code::{Calc, Rep, push_rep};

/// The sign or the word of a calculation.
pub fn calc(word: Calc) -> &'static [u8]
    ensures { result.now ≡ spec.calc_text word }
{
    match word {
        Calc::Add => b"+",
        Calc::Sub => b"-",
        Calc::Mul => b"*",
        Calc::Div => b"/",
        Calc::Mod => b"%",
        Calc::Min => b"min",
        Calc::Max => b"max",
        Calc::Lt => b"<",
        Calc::Le => b"<=",
        Calc::Eq => b"==",
        Calc::Ne => b"!=",
        Calc::And => b"&&",
        Calc::Or => b"||",
        Calc::Xor => b"xor",
        Calc::Shl => b"shl",
        Calc::Shr => b"shr",
    }
}

/// The level of what stands on the left of a sign.
pub fn left_level(word: Calc) -> u8
    ensures { result ≡ spec.left_level word }
{
    match looseness(word) {
        0 => 0,
        3 => 3,
        other => other + 1,
    }
}

pub fn truth(value: bool) -> &'static [u8]
    ensures { result.now ≡ spec.truth_text value }
{
    if value { b"true" } else { b"false" }
}

/// A type of containers, with its representation.
fn container(out: &mut Vec<u8>, ty: Ty, held: Rep) -> Result<(), AllocError>
    ensures { OnOk result (out.new.items ≡ out.old.items ++ spec.held_text ty held) }
{
    out.extend_from_slice(ty.word())?;
    out.extend_from_slice(b" as ")?;
    push_rep(out, held)
}

/// A type with its representation.
pub fn held(out: &mut Vec<u8>, ty: Ty, rep: Rep) -> Result<(), AllocError>
    ensures { OnOk result (out.new.items ≡ out.old.items ++ spec.type_text ty rep) }
{
    match ty {
        Ty::Nat | Ty::Bool => out.extend_from_slice(ty.word()),
        Ty::List | Ty::Set | Ty::Map | Ty::Bag => container(out, ty, rep),
    }
}
