//! Expressions.

ghost use Rattle.std.specs.Prelude.{◌≡◌, ◌++◌, OnOk};
ghost use Rattle.nres_print.specs.Exprs as spec;
ghost use Rattle.nres_print.specs.Spellings.{listed, bracketed};

use crate::words;
use nres_core::{Chosen, Expr, looseness};
use std::alloc::AllocError;
use target_code::{Calc, push_number, push_rep};

/// Whether an expression stands without brackets where the level is wanted.
fn stands(e: &Expr, level: u8) -> bool
    ensures { result ≡ spec.stands e.now level }
{
    match e {
        Expr::Num { .. } | Expr::Truth { .. } | Expr::Var(_) => true,
        Expr::Not { .. } | Expr::Apply { .. } => 1 <= level,
        Expr::Binary { word, .. } => looseness(*word) + 1 <= level,
    }
}

/// Writes an expression where the level is wanted: 0 is an atom, 1 an application, and one more than its looseness
/// the level of a sign.
#[cycle(print)]
pub fn expr(out: &mut Vec<u8>, e: &Expr, level: u8) -> Result<(), AllocError>
    ensures { OnOk result (out.new.items ≡ out.old.items ++ spec.expr_text e.now level) }
{
    if stands(e, level) {
        return plain(out, e);
    }
    out.extend_from_slice(b"(")?;
    plain(out, e)?;
    out.extend_from_slice(b")")
}

/// Without brackets round it.
#[cycle(print)]
fn plain(out: &mut Vec<u8>, e: &Expr) -> Result<(), AllocError>
    ensures { OnOk result (out.new.items ≡ out.old.items ++ spec.plain_text e.now) }
{
    match e {
        Expr::Num { value, .. } => push_number(out, *value),
        Expr::Truth { value, .. } => out.extend_from_slice(words::truth(*value)),
        Expr::Var(named) => out.extend_from_slice(named.name.bytes()),
        Expr::Binary {
            word,
            left,
            right,
            ..
        } => {
            front(out, *word)?;
            expr(out, left.get(), words::left_level(*word))?;
            between(out, *word)?;
            expr(out, right.get(), looseness(*word))
        }
        Expr::Not { arg, .. } => {
            out.extend_from_slice(b"!")?;
            expr(out, arg.get(), 1)
        }
        Expr::Apply {
            word,
            args,
            made,
            ..
        } => {
            out.extend_from_slice(word.bytes())?;
            atoms(out, args.as_slice())?;
            chosen(out, *made)
        }
    }
}

/// The word of a calculation, if it has one, in front of its sides.
fn front(out: &mut Vec<u8>, word: Calc) -> Result<(), AllocError>
    ensures { OnOk result (out.new.items ≡ out.old.items ++ spec.front_text word) }
{
    if looseness(word) != 0 {
        return Ok(());
    }
    out.extend_from_slice(words::calc(word))?;
    out.extend_from_slice(b" ")
}

/// A blank between the sides of a calculation, or its sign.
fn between(out: &mut Vec<u8>, word: Calc) -> Result<(), AllocError>
    ensures { OnOk result (out.new.items ≡ out.old.items ++ spec.between_text word) }
{
    out.extend_from_slice(b" ")?;
    if looseness(word) == 0 {
        return Ok(());
    }
    out.extend_from_slice(words::calc(word))?;
    out.extend_from_slice(b" ")
}

/// The atoms behind a word.
#[cycle(print)]
fn atoms(out: &mut Vec<u8>, list: &[Expr]) -> Result<(), AllocError>
    ensures { OnOk result (out.new.items ≡ out.old.items ++ spec.atoms_at spec.expr_text list.now) }
{
    'each: for atom in list {
        out.extend_from_slice(b" ")?;
        expr(out, atom, 0)?;
    }
    Ok(())
}

/// The representation that is chosen for a constructor.
fn chosen(out: &mut Vec<u8>, made: Option<Chosen>) -> Result<(), AllocError>
    ensures { OnOk result (out.new.items ≡ out.old.items ++ spec.chosen_text made) }
{
    match made {
        None => Ok(()),
        Some(chosen) => {
            out.extend_from_slice(b" as ")?;
            push_rep(out, chosen.rep)
        }
    }
}

/// An expression that stands in no other.
pub fn whole(out: &mut Vec<u8>, e: &Expr) -> Result<(), AllocError>
    ensures { OnOk result (out.new.items ≡ out.old.items ++ spec.whole_text e.now) }
{
    expr(out, e, 6)
}

/// Expressions, with commas between them.
fn wholes(out: &mut Vec<u8>, list: &[Expr]) -> Result<(), AllocError>
    ensures { OnOk result (out.new.items ≡ out.old.items ++ listed spec.whole_text list.now) }
{
    if let [first, others @ ..] = list {
        whole(out, first)?;
        'each: for other in others {
            out.extend_from_slice(b", ")?;
            whole(out, other)?;
        }
    }
    Ok(())
}

/// Arguments in brackets.
pub fn arguments(out: &mut Vec<u8>, list: &[Expr]) -> Result<(), AllocError>
    ensures { OnOk result (out.new.items ≡ out.old.items ++ bracketed spec.whole_text list.now) }
{
    out.extend_from_slice(b"(")?;
    wholes(out, list)?;
    out.extend_from_slice(b")")
}

/// Results, in brackets unless there is one.
pub fn results(out: &mut Vec<u8>, list: &[Expr]) -> Result<(), AllocError>
    ensures { OnOk result (out.new.items ≡ out.old.items ++ spec.results_text list.now) }
{
    match list {
        [only] => whole(out, only),
        _ => arguments(out, list),
    }
}
