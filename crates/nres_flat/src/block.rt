//! Blocks and their steps.

ghost use Rattle.std.specs.Prelude.{◌≡◌, suc, [], ◌∷◌, length, IfOk, OnOk};
ghost use Rattle.nres_core.specs.FlatTree.{binds_of};
ghost use Rattle.nres_rules.specs.Flatten.{flat_blk, flat_steps, flat_exps, place_of};
ghost use Rattle.nres_core.specs.Mirror.{id_blk_of, id_before, all_id_steps};
ghost use Rattle.nres_core.specs.Tree.{Exps, Steps};
ghost use Rattle.nres_core.specs.declared.flat.Arg.TheVariants as args;
ghost use Rattle.nres_core.specs.declared.op.Op.{Op};
ghost use Rattle.nres_flat.specs.Adding.{AddsBlock, AddsNamed, AddsParts, Ahead, IsBehind};
ghost use Rattle.nres_flat.specs.Lookups.{number_in};

use crate::body::body;
use crate::divided::enter;
use crate::expr::{alone, exprs};
use crate::known::bind_all;
use crate::names::Names;
use nres_core::{Arg, FlatBind, FlatBlock, IdBlock, IdStep, Named};
use scopes::Scope;
use sqlite_items::Items;
use std::alloc::{AllocError, Global};

/// A block by itself.
#[cycle(block)]
pub fn block<'a>(
    alloc: Global,
    tree: &'a IdBlock,
    scope: &mut Scope<'a, Arg>,
    procedures: &Scope<u32>,
    names: &mut Names,
) -> Result<FlatBlock, AllocError>
    ensures block { IfOk result (λ b. AddsBlock (flat_blk (number_in procedures.now) (id_blk_of tree.now) scope.old (length names.old)) (place_of (id_blk_of tree.now)) b names.old names.new) }
    ensures scope { OnOk result (scope.new ≡ scope.old) }
{
    let mut binds = Items::new(alloc);
    match results(alloc, tree, scope, procedures, names, &mut binds) {
        Ok(results) => Ok(FlatBlock {
            binds,
            place: tree.place,
            results,
        }),
        Err(error) => {
            drop(binds);
            Err(error)
        }
    }
}

/// A block that begins with a variable of this name, and the variable.
#[cycle(block)]
pub fn part<'a>(
    alloc: Global,
    tree: &'a IdBlock,
    name: &'a Named,
    scope: &mut Scope<'a, Arg>,
    procedures: &Scope<u32>,
    names: &mut Names,
) -> Result<(u32, FlatBlock), AllocError>
    ensures block { IfOk result (λ b. AddsNamed (flat_blk (number_in procedures.now) (id_blk_of tree.now) ((name.now.name, args.Var (length names.old)) ∷ scope.old) (suc (length names.old))) (place_of (id_blk_of tree.now)) name.now.name b names.old names.new) }
    ensures scope { OnOk result (scope.new ≡ scope.old) }
{
    let mark = scope.len();
    let variable = enter(alloc, name, scope, names)?;
    let block = block(alloc, tree, scope, procedures, names)?;
    scope.leave(mark);
    Ok((variable, block))
}

/// What the results of a block stand for, behind its binds.
#[cycle(block)]
pub fn results<'a>(
    alloc: Global,
    tree: &'a IdBlock,
    scope: &mut Scope<'a, Arg>,
    procedures: &Scope<u32>,
    names: &mut Names,
    binds: &mut Items<FlatBind>,
) -> Result<Items<Arg>, AllocError>
    ensures parts { IfOk result (λ us. AddsParts (flat_blk (number_in procedures.now) (id_blk_of tree.now) scope.old (length names.old)) us (binds_of binds.old) (binds_of binds.new) names.old names.new) }
    ensures scope { OnOk result (scope.new ≡ scope.old) }
{
    let mark = scope.len();
    steps(
        alloc,
        tree.steps.as_slice(),
        scope,
        procedures,
        names,
        binds,
    )?;
    let results = exprs(alloc, tree.results.as_slice(), scope, names, binds)?;
    scope.leave(mark);
    Ok(results)
}

/// Steps, whose names stay in scope.
#[cycle(block)]
fn steps<'a>(
    alloc: Global,
    trees: &'a [IdStep],
    scope: &mut Scope<'a, Arg>,
    procedures: &Scope<u32>,
    names: &mut Names,
    binds: &mut Items<FlatBind>,
) -> Result<(), AllocError>
    ensures ahead { OnOk result ((es : Exps Op) → Ahead (flat_steps (number_in procedures.now) (all_id_steps trees.now) es scope.old (length names.old)) [] (flat_exps es scope.new (length names.new)) (binds_of binds.old) (binds_of binds.new) names.old names.new) }
    ensures scope { OnOk result (IsBehind scope.old scope.new) }
{
    'each: for tree in trees {
        step(alloc, tree, scope, procedures, names, binds)?;
    }
    Ok(())
}

/// A step, whose names stay in scope.
#[cycle(block)]
fn step<'a>(
    alloc: Global,
    tree: &'a IdStep,
    scope: &mut Scope<'a, Arg>,
    procedures: &Scope<u32>,
    names: &mut Names,
    binds: &mut Items<FlatBind>,
) -> Result<(), AllocError>
    ensures ahead { OnOk result ((rest : Steps Op) (es : Exps Op) → Ahead (flat_steps (number_in procedures.now) (id_before tree.now rest) es scope.old (length names.old)) [] (flat_steps (number_in procedures.now) rest es scope.new (length names.new)) (binds_of binds.old) (binds_of binds.new) names.old names.new) }
    ensures scope { OnOk result (IsBehind scope.old scope.new) }
{
    match tree {
        IdStep::Bind {
            names: pattern,
            body: bound,
            ..
        } => {
            let pattern = pattern.as_slice();
            let args = body(alloc, bound, pattern, scope, procedures, names, binds)?;
            bind_all(scope, pattern, args.as_slice())
        }
        IdStep::Assert { place, test } => {
            let (inner, test) = alone(alloc, test, scope, names)?;
            binds.push(FlatBind::Assert {
                place: *place,
                inner,
                test,
            })
        }
    }
}
