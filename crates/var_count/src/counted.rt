//! The numbers of variables. Those of a procedure stand behind all that come before it in the text.

ghost use Rattle.std.specs.Prelude.{◌≡◌, ◌+◌, length, IfOk};
ghost use Rattle.nres_core.specs.FlatTree.{Binds, before_of, binds_of, bound_in, flats_of};

use nres_core::{FlatBind, FlatBlock};
use std::alloc::AllocError;
use target_code::InParam;

/// The number behind those of the parameters and of all variables of a body, where the first parameter has this one. There is no memory
/// for more than 32 bits count.
pub fn behind(first: u32, params: &[InParam], body: &FlatBlock) -> Result<u32, AllocError>
    ensures { IfOk result (λ next. next ≡ first + length params.now + bound_in (flats_of body.now).binds) }
{
    let next = add(first, params.len())?;
    in_block(body, next)
}

fn add(sum: u32, more: usize) -> Result<u32, AllocError>
    ensures { IfOk result (λ next. next ≡ sum + more) }
{
    match u32::try_from(more) {
        Ok(more) => sum.checked_add(more).ok_or(AllocError),
        Err(_) => Err(AllocError),
    }
}

#[cycle(count)]
fn in_block(block: &FlatBlock, sum: u32) -> Result<u32, AllocError>
    ensures { IfOk result (λ next. next ≡ sum + bound_in (flats_of block.now).binds) }
{
    in_binds(block.binds.as_slice(), sum)
}

#[cycle(count)]
fn in_binds(binds: &[FlatBind], sum: u32) -> Result<u32, AllocError>
    ensures { IfOk result (λ next. next ≡ sum + bound_in (binds_of binds.now)) }
{
    let mut next = sum;
    'each: for bind in binds {
        next = in_bind(bind, next)?;
    }
    Ok(next)
}

#[cycle(count)]
fn in_bind(bind: &FlatBind, sum: u32) -> Result<u32, AllocError>
    ensures { IfOk result (λ next. (rest : Binds) → next + bound_in rest ≡ sum + bound_in (before_of bind.now rest)) }
{
    match bind {
        FlatBind::Calc { .. } => add(sum, 1),
        FlatBind::Any { .. } => add(sum, 1),
        FlatBind::Apply { outs, .. } => add(sum, outs.len()),
        FlatBind::Call { outs, .. } => add(sum, outs.len()),
        FlatBind::Assert { inner, .. } => in_binds(inner.as_slice(), sum),
        FlatBind::If { outs, yes, no, .. } => {
            let next = in_block(yes, sum)?;
            let next = in_block(no, next)?;
            add(next, outs.len())
        }
        FlatBind::Par {
            outs,
            left,
            right,
            ..
        } => {
            let next = in_block(left, sum)?;
            let next = in_block(right, next)?;
            add(next, outs.len())
        }
        FlatBind::Either {
            outs,
            left,
            right,
            ..
        } => {
            let next = in_block(left, sum)?;
            let next = in_block(right, next)?;
            add(next, outs.len())
        }
        FlatBind::Split {
            outs,
            left,
            right,
            ..
        } => {
            let next = in_block(left, sum)?;
            let next = in_block(right, next)?;
            let next = add(next, outs.len())?;
            add(next, 2)
        }
        FlatBind::While {
            outs,
            vars,
            cond,
            body,
            ..
        } => {
            let next = add(sum, vars.len())?;
            let next = in_binds(cond.as_slice(), next)?;
            let next = in_block(body, next)?;
            add(next, outs.len())
        }
    }
}
