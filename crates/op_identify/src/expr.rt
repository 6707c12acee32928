//! Expressions.

ghost use Rattle.std.specs.Prelude.{◌≡◌, IfOk};
ghost use Rattle.nres_rules.specs.Identify.{id_exp, id_exps};
ghost use Rattle.nres_core.specs.Mirror.{exp_of, all_exps, id_exp_of, all_id_exps};

use crate::copy;
use crate::ops::Ops;
use nres_core::{Expr, IdExpr};
use sqlite_items::{Boxed, Items};
use std::alloc::{AllocError, Global};

/// An expression with its words replaced by the next operations.
#[cycle(expr)]
pub fn expr(alloc: Global, tree: &Expr, ops: &mut Ops) -> Result<IdExpr, AllocError>
    ensures { IfOk result (λ e. (id_exp_of e, ops.new) ≡ id_exp (exp_of tree.now) ops.old) }
{
    match tree {
        Expr::Num { place, value } => Ok(IdExpr::Num {
            place: *place,
            value: *value,
        }),
        Expr::Truth { place, value } => Ok(IdExpr::Truth {
            place: *place,
            value: *value,
        }),
        Expr::Var(name) => Ok(IdExpr::Var(copy::named(alloc, name)?)),
        Expr::Binary {
            place,
            word,
            left,
            right,
        } => {
            let left = boxed(alloc, left.get(), ops)?;
            let right = boxed(alloc, right.get(), ops)?;
            Ok(IdExpr::Binary {
                place: *place,
                word: *word,
                left,
                right,
            })
        }
        Expr::Not { place, arg } => {
            let arg = boxed(alloc, arg.get(), ops)?;
            Ok(IdExpr::Not { place: *place, arg })
        }
        Expr::Apply {
            place,
            args,
            made,
            ..
        } => {
            let word = ops.take();
            let args = exprs(alloc, args.as_slice(), ops)?;
            Ok(IdExpr::Apply {
                place: *place,
                word,
                args,
                made: *made,
            })
        }
    }
}

/// An operand.
#[cycle(expr)]
fn boxed(alloc: Global, tree: &Expr, ops: &mut Ops) -> Result<Boxed<IdExpr>, AllocError>
    ensures { IfOk result (λ e. (id_exp_of e, ops.new) ≡ id_exp (exp_of tree.now) ops.old) }
{
    let tree = expr(alloc, tree, ops)?;
    Boxed::new(alloc, tree)
}

/// Expressions, in order.
#[cycle(expr)]
pub fn exprs(alloc: Global, trees: &[Expr], ops: &mut Ops) -> Result<Items<IdExpr>, AllocError>
    ensures { IfOk result (λ es. (all_id_exps es, ops.new) ≡ id_exps (all_exps trees.now) ops.old) }
{
    let mut all = Items::new(alloc);
    'each: for tree in trees {
        all.push(expr(alloc, tree, ops)?)?;
    }
    Ok(all)
}
