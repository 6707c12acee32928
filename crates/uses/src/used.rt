//! The variables that stand in binds and results, in the order of the text, each as often as it stands there.

ghost use Rattle.std.specs.Prelude.{◌≡◌, ◌++◌, ◌∷◌, [], IfOk, OnOk};
ghost use Rattle.nres_core.specs.FlatTree.{Binds, before_of, binds_of, flats_of};
ghost use Rattle.rule_check.specs.Use.{arg_used, args_used, block_used, used, without};

use nres_core::{Arg, FlatBind, FlatBlock};
use sqlite_items::Items;
use std::alloc::{AllocError, Global};

/// The variables that a block uses: those that stand in its binds and in its results, also in blocks inside it, but for those in
/// asserts. A variable stands in the list as often as it is used.
pub fn block_uses(alloc: Global, block: &FlatBlock) -> Result<Items<u32>, AllocError>
    ensures { IfOk result (λ us. us ≡ block_used (flats_of block.now).binds (flats_of block.now).ending) }
{
    let mut uses = Items::new(alloc);
    in_block(block, &mut uses)?;
    Ok(uses)
}

/// A list of variables without one.
pub fn without(alloc: Global, variable: u32, uses: &[u32]) -> Result<Items<u32>, AllocError>
    ensures { IfOk result (λ us. us ≡ without variable uses.now) }
{
    let mut others = Items::new(alloc);
    'each: for used in uses {
        if *used != variable {
            others.push(*used)?;
        }
    }
    Ok(others)
}

fn in_arg(arg: Arg, uses: &mut Items<u32>) -> Result<(), AllocError>
    ensures { OnOk result (uses.new ≡ uses.old ++ arg_used arg []) }
{
    match arg {
        Arg::Var(variable) => uses.push(variable),
        _ => Ok(()),
    }
}

fn in_two(first: Arg, second: Arg, uses: &mut Items<u32>) -> Result<(), AllocError>
    ensures { OnOk result (uses.new ≡ uses.old ++ arg_used first (arg_used second [])) }
{
    in_arg(first, uses)?;
    in_arg(second, uses)
}

fn in_args(args: &[Arg], uses: &mut Items<u32>) -> Result<(), AllocError>
    ensures { OnOk result (uses.new ≡ uses.old ++ args_used args.now) }
{
    'each: for arg in args {
        in_arg(*arg, uses)?;
    }
    Ok(())
}

#[cycle(used)]
fn in_block(block: &FlatBlock, uses: &mut Items<u32>) -> Result<(), AllocError>
    ensures { OnOk result (uses.new ≡ uses.old ++ block_used (flats_of block.now).binds (flats_of block.now).ending) }
{
    in_binds(block.binds.as_slice(), uses)?;
    in_args(block.results.as_slice(), uses)
}

#[cycle(used)]
fn in_binds(binds: &[FlatBind], uses: &mut Items<u32>) -> Result<(), AllocError>
    ensures { OnOk result (uses.new ≡ uses.old ++ used (binds_of binds.now)) }
{
    'each: for bind in binds {
        in_bind(bind, uses)?;
    }
    Ok(())
}

#[cycle(used)]
fn in_bind(bind: &FlatBind, uses: &mut Items<u32>) -> Result<(), AllocError>
    ensures { OnOk result ((rest : Binds) → uses.new ++ used rest ≡ uses.old ++ used (before_of bind.now rest)) }
{
    match bind {
        FlatBind::Calc { left, right, .. } => in_two(*left, *right, uses),
        FlatBind::Any { low, high, .. } => in_two(*low, *high, uses),
        FlatBind::Apply { args, .. } => in_args(args.as_slice(), uses),
        FlatBind::Call { args, .. } => in_args(args.as_slice(), uses),
        FlatBind::Assert { .. } => Ok(()),
        FlatBind::If { test, yes, no, .. } => {
            in_arg(*test, uses)?;
            in_block(yes, uses)?;
            in_block(no, uses)
        }
        FlatBind::Par { left, right, .. } => {
            in_block(left, uses)?;
            in_block(right, uses)
        }
        FlatBind::Either { left, right, .. } => {
            in_block(left, uses)?;
            in_block(right, uses)
        }
        FlatBind::Split {
            list,
            at,
            left,
            right,
            ..
        } => {
            in_two(Arg::Var(*list), *at, uses)?;
            in_block(left, uses)?;
            in_block(right, uses)
        }
        FlatBind::While {
            starts,
            cond,
            test,
            body,
            ..
        } => {
            in_args(starts.as_slice(), uses)?;
            in_binds(cond.as_slice(), uses)?;
            in_arg(*test, uses)?;
            in_block(body, uses)
        }
    }
}
