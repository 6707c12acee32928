//! Expressions.

ghost use Rattle.std.specs.Prelude.{◌≡◌, ℕ, List, length, IfOk};
ghost use Rattle.nres_core.specs.FlatTree.{Binds, No_bind, binds_of};
ghost use Rattle.nres_rules.specs.Flatten.{Parts, apply_part, flat_exp, flat_exps, unnamed};
ghost use Rattle.nres_core.specs.Mirror.{id_exp_of, all_id_exps, rep_of as chosen_rep};
ghost use Rattle.nres_flat.specs.Adding.{named, calculated, AddsPart, AddsParts};

use crate::known::arg_at;
use crate::names::Names;
use nres_core::{Arg, Chosen, FlatBind, IdExpr, Op, Place};
use scopes::Scope;
use sqlite_items::Items;
use std::alloc::{AllocError, Global};
use target_code::{Calc, Name, Rep};

/// Binds a calculation on two arguments to the next variable.
fn calculate(
    alloc: Global,
    place: Place,
    word: Calc,
    operands: (Arg, Arg),
    name: Option<&Name>,
    names: &mut Names,
    binds: &mut Items<FlatBind>,
) -> Result<Arg, AllocError>
    ensures { IfOk result (λ u. AddsPart (calculated place word (named name.entry) operands.0 operands.1 (length names.old)) u (binds_of binds.old) (binds_of binds.new) names.old names.new) }
{
    let out = names.bind(alloc, name)?;
    let (left, right) = operands;
    binds.push(FlatBind::Calc {
        place,
        out,
        word,
        left,
        right,
    })?;
    Ok(Arg::Var(out))
}

/// Binds an operation on arguments to the next variable.
fn apply(
    alloc: Global,
    place: Place,
    op: Op,
    made: Option<Rep>,
    args: Items<Arg>,
    name: Option<&Name>,
    names: &mut Names,
    binds: &mut Items<FlatBind>,
) -> Result<Arg, AllocError>
    ensures { (p : Parts) (x : Binds) (l : List (List ℕ)) → AddsParts p args x (binds_of binds.old) l names.old →
        IfOk result (λ u. AddsPart (apply_part place op made (named name.entry) p) u x (binds_of binds.new) l names.new) }
{
    let out = names.bind(alloc, name)?;
    binds.push(FlatBind::Apply {
        place,
        outs: Items::from_slice(alloc, &[out])?,
        op,
        made,
        args,
    })?;
    Ok(Arg::Var(out))
}

/// The representation that is chosen for a constructor.
fn rep_of(made: &Option<Chosen>) -> Option<Rep>
    ensures { result ≡ chosen_rep made.now }
{
    match made {
        Some(chosen) => Some(chosen.rep),
        None => None,
    }
}

/// What an expression stands for, behind the binds of its parts. The value of a bind gets the name.
#[cycle(expr)]
pub fn expr(
    alloc: Global,
    tree: &IdExpr,
    name: Option<&Name>,
    scope: &Scope<Arg>,
    names: &mut Names,
    binds: &mut Items<FlatBind>,
) -> Result<Arg, AllocError>
    ensures { IfOk result (λ u. AddsPart (flat_exp (id_exp_of tree.now) scope.now (named name.entry) (length names.old)) u (binds_of binds.old) (binds_of binds.new) names.old names.new) }
{
    match tree {
        IdExpr::Num { value, .. } => Ok(Arg::Num(*value)),
        IdExpr::Truth { value, .. } => Ok(Arg::Truth(*value)),
        IdExpr::Var(used) => Ok(arg_at(scope, used.name.bytes())),
        IdExpr::Binary {
            place,
            word,
            left,
            right,
        } => {
            let left = expr(alloc, left.get(), None, scope, names, binds)?;
            let right = expr(alloc, right.get(), None, scope, names, binds)?;
            calculate(alloc, *place, *word, (left, right), name, names, binds)
        }
        IdExpr::Not { place, arg } => {
            let arg = expr(alloc, arg.get(), None, scope, names, binds)?;
            let operands = (arg, Arg::Truth(false));
            calculate(alloc, *place, Calc::Eq, operands, name, names, binds)
        }
        IdExpr::Apply {
            place,
            word,
            args,
            made,
        } => {
            let args = exprs(alloc, args.as_slice(), scope, names, binds)?;
            let made = rep_of(made);
            apply(alloc, *place, *word, made, args, name, names, binds)
        }
    }
}

/// What expressions stand for, in order.
#[cycle(expr)]
pub fn exprs(
    alloc: Global,
    trees: &[IdExpr],
    scope: &Scope<Arg>,
    names: &mut Names,
    binds: &mut Items<FlatBind>,
) -> Result<Items<Arg>, AllocError>
    ensures { IfOk result (λ us. AddsParts (flat_exps (all_id_exps trees.now) scope.now (length names.old)) us (binds_of binds.old) (binds_of binds.new) names.old names.new) }
{
    let mut args = Items::new(alloc);
    'each: for tree in trees {
        args.push(expr(alloc, tree, None, scope, names, binds)?)?;
    }
    Ok(args)
}

/// What an expression stands for, with its binds by themselves.
pub fn alone(
    alloc: Global,
    tree: &IdExpr,
    scope: &Scope<Arg>,
    names: &mut Names,
) -> Result<(Items<FlatBind>, Arg), AllocError>
    ensures { IfOk result (λ r. AddsPart (flat_exp (id_exp_of tree.now) scope.now unnamed (length names.old)) r.1 No_bind (binds_of r.0) names.old names.new) }
{
    let mut binds = Items::new(alloc);
    match expr(alloc, tree, None, scope, names, &mut binds) {
        Ok(arg) => Ok((binds, arg)),
        Err(error) => {
            drop(binds);
            Err(error)
        }
    }
}
