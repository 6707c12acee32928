//! Heads of specifications and procedures, and patterns.

ghost use Rattle.std.specs.Prelude.{◌≡◌, ◌++◌, OnOk};
ghost use Rattle.nres_print.specs.Heads as spec;
ghost use Rattle.nres_print.specs.Spellings.{listed, bracketed, grouped};

use crate::words;
use nres_core::{Named, Param, Shown};
use std::alloc::AllocError;

fn param(out: &mut Vec<u8>, param: &Param) -> Result<(), AllocError>
    ensures { OnOk result (out.new.items ≡ out.old.items ++ spec.param_text param.now) }
{
    out.extend_from_slice(param.name.bytes())?;
    out.extend_from_slice(b": ")?;
    words::held(out, param.ty, param.rep)?;
    if param.kept {
        out.extend_from_slice(b" kept")?;
    }
    Ok(())
}

/// The parameters, with commas between them.
fn params(out: &mut Vec<u8>, list: &[Param]) -> Result<(), AllocError>
    ensures { OnOk result (out.new.items ≡ out.old.items ++ listed spec.param_text list.now) }
{
    if let [first, others @ ..] = list {
        param(out, first)?;
        'each: for other in others {
            out.extend_from_slice(b", ")?;
            param(out, other)?;
        }
    }
    Ok(())
}

fn one(out: &mut Vec<u8>, shown: Shown) -> Result<(), AllocError>
    ensures { OnOk result (out.new.items ≡ out.old.items ++ spec.shown_text shown) }
{
    words::held(out, shown.ty, shown.rep)
}

/// What is shown, with commas between.
fn several(out: &mut Vec<u8>, list: &[Shown]) -> Result<(), AllocError>
    ensures { OnOk result (out.new.items ≡ out.old.items ++ listed spec.shown_text list.now) }
{
    if let [first, others @ ..] = list {
        one(out, *first)?;
        'each: for other in others {
            out.extend_from_slice(b", ")?;
            one(out, *other)?;
        }
    }
    Ok(())
}

/// What is shown, in brackets unless it is one.
fn shown(out: &mut Vec<u8>, list: &[Shown]) -> Result<(), AllocError>
    ensures { OnOk result (out.new.items ≡ out.old.items ++ grouped spec.shown_text list.now) }
{
    match list {
        [only] => one(out, *only),
        _ => {
            out.extend_from_slice(b"(")?;
            several(out, list)?;
            out.extend_from_slice(b")")
        }
    }
}

/// The names, with commas between them.
fn names(out: &mut Vec<u8>, list: &[Named]) -> Result<(), AllocError>
    ensures { OnOk result (out.new.items ≡ out.old.items ++ listed spec.name_text list.now) }
{
    if let [first, others @ ..] = list {
        out.extend_from_slice(first.name.bytes())?;
        'each: for other in others {
            out.extend_from_slice(b", ")?;
            out.extend_from_slice(other.name.bytes())?;
        }
    }
    Ok(())
}

/// The names in brackets.
pub fn name_list(out: &mut Vec<u8>, list: &[Named]) -> Result<(), AllocError>
    ensures { OnOk result (out.new.items ≡ out.old.items ++ bracketed spec.name_text list.now) }
{
    out.extend_from_slice(b"(")?;
    names(out, list)?;
    out.extend_from_slice(b")")
}

/// A pattern.
pub fn pattern(out: &mut Vec<u8>, list: &[Named]) -> Result<(), AllocError>
    ensures { OnOk result (out.new.items ≡ out.old.items ++ spec.pattern_text list.now) }
{
    match list {
        [only] => out.extend_from_slice(only.name.bytes()),
        _ => name_list(out, list),
    }
}

/// The parameters in brackets.
fn param_list(out: &mut Vec<u8>, list: &[Param]) -> Result<(), AllocError>
    ensures { OnOk result (out.new.items ≡ out.old.items ++ bracketed spec.param_text list.now) }
{
    out.extend_from_slice(b"(")?;
    params(out, list)?;
    out.extend_from_slice(b")")
}

/// The first line of a specification or a procedure, which begins with the word.
pub fn head(
    out: &mut Vec<u8>,
    word: &[u8],
    name: &[u8],
    params: &[Param],
    results: &[Shown],
) -> Result<(), AllocError>
    ensures { OnOk result (out.new.items ≡ out.old.items ++ spec.head_text word.now name.now params.now results.now) }
{
    out.extend_from_slice(word)?;
    out.extend_from_slice(name)?;
    out.extend_from_slice(b" ")?;
    param_list(out, params)?;
    out.extend_from_slice(b" : ")?;
    shown(out, results)?;
    out.extend_from_slice(b"\n")
}
