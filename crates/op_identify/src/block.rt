//! Blocks, steps and bodies.

ghost use Rattle.std.specs.Prelude.{◌≡◌, List, IfOk};
ghost use Rattle.nres_rules.specs.Identify.{next_op, other_ops, id_blk, id_exp, id_steps, id_bod};
ghost use Rattle.nres_core.specs.Mirror.{exp_of, all_exps, blk_of, bod_of, before, all_steps, id_exp_of, all_id_exps, id_blk_of, id_bod_of, id_before, all_id_steps};
ghost use Rattle.nres_core.specs.Tree as t;
ghost use Rattle.nres_core.specs.Tree.{Bod};
ghost use Rattle.nres_core.specs.declared.op.Op.{Op};
ghost use Rattle.op_identify.specs.Fronts.{Continues};

use crate::copy;
use crate::expr::{expr, exprs};
use crate::ops::Ops;
use nres_core::{Block, Body, Expr, IdBlock, IdBody, IdExpr, IdStep, Named, Place, Step};
use sqlite_items::Items;
use std::alloc::{AllocError, Global};

/// A block with its words replaced by the next operations.
#[cycle(block)]
pub fn block(alloc: Global, tree: &Block, ops: &mut Ops) -> Result<IdBlock, AllocError>
    ensures { IfOk result (λ b. (id_blk_of b, ops.new) ≡ id_blk (blk_of tree.now) ops.old) }
{
    let steps = steps(alloc, tree.steps.as_slice(), ops)?;
    match exprs(alloc, tree.results.as_slice(), ops) {
        Ok(results) => Ok(IdBlock {
            steps,
            place: tree.place,
            results,
        }),
        Err(error) => {
            drop(steps);
            Err(error)
        }
    }
}

#[cycle(block)]
fn steps(alloc: Global, trees: &[Step], ops: &mut Ops) -> Result<Items<IdStep>, AllocError>
    ensures { IfOk result (λ ss. (all_id_steps ss, ops.new) ≡ id_steps (all_steps trees.now) ops.old) }
{
    let mut all = Items::new(alloc);
    'each: for tree in trees {
        all.push(step(alloc, tree, ops)?)?;
    }
    Ok(all)
}

/// A step; those behind it go on with the operations that are left.
#[cycle(block)]
fn step(alloc: Global, tree: &Step, ops: &mut Ops) -> Result<IdStep, AllocError>
    ensures { IfOk result (λ s. Continues (before tree.now) ops.old (id_before s) ops.new) }
{
    match tree {
        Step::Bind { names, place, body } => Ok(IdStep::Bind {
            names: copy::names(alloc, names.as_slice())?,
            place: *place,
            body: bound(alloc, body, ops)?,
        }),
        Step::Assert { place, test } => Ok(IdStep::Assert {
            place: *place,
            test: expr(alloc, test, ops)?,
        }),
    }
}

/// What gives the results of a bind.
#[cycle(block)]
fn bound(alloc: Global, tree: &Body, ops: &mut Ops) -> Result<IdBody, AllocError>
    ensures { IfOk result (λ b. (id_bod_of b, ops.new) ≡ id_bod (bod_of tree.now) ops.old) }
{
    match tree {
        Body::Value(tree) => value(alloc, tree, ops),
        Body::Take { place, arg, .. } => take(alloc, *place, arg, ops),
        Body::Any { place, low, high } => any(alloc, *place, low, high, ops),
        Body::If {
            place,
            test,
            yes,
            no,
        } => {
            let first = behind(alloc, yes, test, ops)?;
            let ((test, yes), no) = after_both(alloc, no, first, ops)?;
            Ok(IdBody::If {
                place: *place,
                test,
                yes,
                no,
            })
        }
        Body::While {
            place,
            vars,
            vars_place,
            starts,
            test,
            body,
        } => {
            let head = LoopHead {
                place: *place,
                vars: vars.as_slice(),
                vars_place: *vars_place,
            };
            turns(alloc, body, &head, starts.as_slice(), test, ops)
        }
        Body::Par { place, left, right } => {
            let left = block(alloc, left, ops)?;
            let (left, right) = after_block(alloc, right, left, ops)?;
            Ok(IdBody::Par {
                place: *place,
                left,
                right,
            })
        }
        Body::Split {
            place,
            list,
            at,
            left_name,
            left,
            right_name,
            right,
        } => {
            let first = behind(alloc, left, at, ops)?;
            let (first, right) = after_both(alloc, right, first, ops)?;
            let cut = Cut {
                place: *place,
                list,
                left: left_name,
                right: right_name,
            };
            divided(alloc, &cut, first, right)
        }
        Body::Either { place, left, right } => {
            let left = block(alloc, left, ops)?;
            let (left, right) = after_block(alloc, right, left, ops)?;
            Ok(IdBody::Either {
                place: *place,
                left,
                right,
            })
        }
        Body::Foreach {
            place,
            var,
            over,
            vars,
            vars_place,
            starts,
            body,
        } => {
            let head = SetHead {
                place: *place,
                var,
                over,
                vars: vars.as_slice(),
                vars_place: *vars_place,
            };
            each(alloc, body, &head, starts.as_slice(), ops)
        }
        Body::Call { place, fun, args } => call(alloc, *place, fun, args.as_slice(), ops),
    }
}

// ---- a block behind what stands before it; each function has one block, by which it goes down the tree

/// An expression, and a block behind it.
#[cycle(block)]
fn behind(
    alloc: Global,
    tree: &Block,
    test: &Expr,
    ops: &mut Ops,
) -> Result<(IdExpr, IdBlock), AllocError>
    ensures test { IfOk result (λ x. id_exp_of x.0 ≡ (id_exp (exp_of test.now) ops.old).0) }
    ensures block { IfOk result (λ x. (id_blk_of x.1, ops.new) ≡ id_blk (blk_of tree.now) (id_exp (exp_of test.now) ops.old).1) }
{
    let test = expr(alloc, test, ops)?;
    match block(alloc, tree, ops) {
        Ok(block) => Ok((test, block)),
        Err(error) => {
            drop(test);
            Err(error)
        }
    }
}

/// The block behind a block.
#[cycle(block)]
fn after_block(
    alloc: Global,
    tree: &Block,
    first: IdBlock,
    ops: &mut Ops,
) -> Result<(IdBlock, IdBlock), AllocError>
    ensures first { IfOk result (λ x. x.0 ≡ first) }
    ensures block { IfOk result (λ x. (id_blk_of x.1, ops.new) ≡ id_blk (blk_of tree.now) ops.old) }
{
    match block(alloc, tree, ops) {
        Ok(block) => Ok((first, block)),
        Err(error) => {
            drop(first);
            Err(error)
        }
    }
}

/// The block behind an expression and a block.
#[cycle(block)]
fn after_both(
    alloc: Global,
    tree: &Block,
    first: (IdExpr, IdBlock),
    ops: &mut Ops,
) -> Result<((IdExpr, IdBlock), IdBlock), AllocError>
    ensures first { IfOk result (λ x. x.0 ≡ first) }
    ensures block { IfOk result (λ x. (id_blk_of x.1, ops.new) ≡ id_blk (blk_of tree.now) ops.old) }
{
    match block(alloc, tree, ops) {
        Ok(block) => Ok((first, block)),
        Err(error) => {
            drop(first);
            Err(error)
        }
    }
}

// ---- loops

/// The variables of a loop by a condition.
#[derive(Drop)]
struct LoopHead<'a> {
    place: Place,
    vars: &'a [Named],
    vars_place: Place,
}

/// The element, the set and the variables of a loop over a set.
#[derive(Drop)]
struct SetHead<'a> {
    place: Place,
    var: &'a Named,
    over: &'a Named,
    vars: &'a [Named],
    vars_place: Place,
}

/// A loop by a condition.
#[cycle(block)]
fn turns(
    alloc: Global,
    tree: &Block,
    head: &LoopHead,
    starts: &[Expr],
    test: &Expr,
    ops: &mut Ops,
) -> Result<IdBody, AllocError>
    ensures { IfOk result (λ b. (id_bod_of b, ops.new) ≡ id_bod (t.While head.now.place head.now.vars.now head.now.vars_place (all_exps starts.now) (exp_of test.now) (blk_of tree.now)) ops.old) }
{
    let starts = exprs(alloc, starts, ops)?;
    match behind(alloc, tree, test, ops) {
        Ok((test, body)) => looped(alloc, head, starts, test, body),
        Err(error) => {
            drop(starts);
            Err(error)
        }
    }
}

/// A loop over a set.
#[cycle(block)]
fn each(
    alloc: Global,
    tree: &Block,
    head: &SetHead,
    starts: &[Expr],
    ops: &mut Ops,
) -> Result<IdBody, AllocError>
    ensures { IfOk result (λ b. (id_bod_of b, ops.new) ≡ id_bod (t.Foreach head.now.place head.now.var.now head.now.over.now head.now.vars.now head.now.vars_place (all_exps starts.now) (blk_of tree.now)) ops.old) }
{
    let starts = exprs(alloc, starts, ops)?;
    match block(alloc, tree, ops) {
        Ok(body) => looped_over(alloc, head, starts, body),
        Err(error) => {
            drop(starts);
            Err(error)
        }
    }
}

/// A loop by a condition whose parts are there.
fn looped(
    alloc: Global,
    head: &LoopHead,
    starts: Items<IdExpr>,
    test: IdExpr,
    body: IdBlock,
) -> Result<IdBody, AllocError>
    ensures { IfOk result (λ b. id_bod_of b ≡ t.While head.now.place head.now.vars.now head.now.vars_place (all_id_exps starts) (id_exp_of test) (id_blk_of body)) }
{
    match copy::names(alloc, head.vars) {
        Ok(vars) => Ok(IdBody::While {
            place: head.place,
            vars,
            vars_place: head.vars_place,
            starts,
            test,
            body,
        }),
        Err(error) => {
            drop((starts, (test, body)));
            Err(error)
        }
    }
}

/// A loop over a set whose parts are there.
fn looped_over(
    alloc: Global,
    head: &SetHead,
    starts: Items<IdExpr>,
    body: IdBlock,
) -> Result<IdBody, AllocError>
    ensures { IfOk result (λ b. id_bod_of b ≡ t.Foreach head.now.place head.now.var.now head.now.over.now head.now.vars.now head.now.vars_place (all_id_exps starts) (id_blk_of body)) }
{
    match set_names(alloc, head.var, head.over, head.vars) {
        Ok((var, over, vars)) => Ok(IdBody::Foreach {
            place: head.place,
            var,
            over,
            vars,
            vars_place: head.vars_place,
            starts,
            body,
        }),
        Err(error) => {
            drop((starts, body));
            Err(error)
        }
    }
}

/// The variables of a loop over a set: the element, the set, and the others.
fn set_names(
    alloc: Global,
    var: &Named,
    over: &Named,
    vars: &[Named],
) -> Result<(Named, Named, Items<Named>), AllocError>
    ensures var { IfOk result (λ x. x.0 ≡ var.now) }
    ensures over { IfOk result (λ x. x.1 ≡ over.now) }
    ensures vars { IfOk result (λ x. x.2 ≡ vars.now) }
{
    let var = copy::named(alloc, var)?;
    let over = copy::named(alloc, over)?;
    let vars = copy::names(alloc, vars)?;
    Ok((var, over, vars))
}

// ---- divisions

/// The names of a list that is divided, and of its two parts.
#[derive(Drop)]
struct Cut<'a> {
    place: Place,
    list: &'a Named,
    left: &'a Named,
    right: &'a Named,
}

/// Two blocks on the two parts of a list, with the place where it is divided beside the first.
fn divided(
    alloc: Global,
    cut: &Cut,
    first: (IdExpr, IdBlock),
    right: IdBlock,
) -> Result<IdBody, AllocError>
    ensures { IfOk result (λ b. id_bod_of b ≡ t.Split cut.now.place cut.now.list.now (id_exp_of first.0) cut.now.left.now (id_blk_of first.1) cut.now.right.now (id_blk_of right)) }
{
    match cut_names(alloc, cut) {
        Ok((list, left_name, right_name)) => {
            let (at, left) = first;
            Ok(IdBody::Split {
                place: cut.place,
                list,
                at,
                left_name,
                left,
                right_name,
                right,
            })
        }
        Err(error) => {
            drop((first, right));
            Err(error)
        }
    }
}

/// The list that is divided, and its two parts.
fn cut_names(alloc: Global, cut: &Cut) -> Result<(Named, Named, Named), AllocError>
    ensures list { IfOk result (λ x. x.0 ≡ cut.now.list.now) }
    ensures left { IfOk result (λ x. x.1 ≡ cut.now.left.now) }
    ensures right { IfOk result (λ x. x.2 ≡ cut.now.right.now) }
{
    let list = copy::named(alloc, cut.list)?;
    let left = copy::named(alloc, cut.left)?;
    let right = copy::named(alloc, cut.right)?;
    Ok((list, left, right))
}

// ---- bodies without a block

fn value(alloc: Global, tree: &Expr, ops: &mut Ops) -> Result<IdBody, AllocError>
    ensures { IfOk result (λ b. (id_bod_of b, ops.new) ≡ id_bod (t.Value (exp_of tree.now)) ops.old) }
{
    Ok(IdBody::Value(expr(alloc, tree, ops)?))
}

fn take(alloc: Global, place: Place, arg: &Expr, ops: &mut Ops) -> Result<IdBody, AllocError>
    ensures { let x = id_exp (exp_of arg.now) (other_ops ops.old) in
        let all : Bod Op × List Op = (t.Take place (next_op ops.old) x.0, x.1) in IfOk result (λ b. (id_bod_of b, ops.new) ≡ all) }
{
    let word = ops.take();
    let arg = expr(alloc, arg, ops)?;
    Ok(IdBody::Take { place, word, arg })
}

fn any(
    alloc: Global,
    place: Place,
    low: &Expr,
    high: &Expr,
    ops: &mut Ops,
) -> Result<IdBody, AllocError>
    ensures { IfOk result (λ b. (id_bod_of b, ops.new) ≡ id_bod (t.Any place (exp_of low.now) (exp_of high.now)) ops.old) }
{
    let low = expr(alloc, low, ops)?;
    match expr(alloc, high, ops) {
        Ok(high) => Ok(IdBody::Any { place, low, high }),
        Err(error) => {
            drop(low);
            Err(error)
        }
    }
}

fn call(
    alloc: Global,
    place: Place,
    fun: &Named,
    args: &[Expr],
    ops: &mut Ops,
) -> Result<IdBody, AllocError>
    ensures { IfOk result (λ b. (id_bod_of b, ops.new) ≡ id_bod (t.Call place fun.now (all_exps args.now)) ops.old) }
{
    let fun = copy::named(alloc, fun)?;
    let args = exprs(alloc, args, ops)?;
    Ok(IdBody::Call { place, fun, args })
}
