//! Whether a specification has branches.

ghost use Rattle.std.specs.Prelude.{◌≡◌, ◌&&◌};
ghost use Rattle.sequential.specs.Sequential.{sequential, sequential_procs, sequential_whole};
ghost use Rattle.nres_core.specs.FlatTree.{Binds, before_of, binds_of, flat_procs_of, flat_whole_of, flats_of};

use nres_core::{Flat, FlatBind, FlatBlock, FlatFun};

/// Whether no bind of a specification and of its procedures is a `par` or a `split`.
pub fn is_sequential(flat: &Flat) -> bool
    ensures { result ≡ sequential_whole (flat_whole_of flat.now) }
{
    is_sequential_block(&flat.body) && are_sequential(flat.funs.as_slice())
}

fn are_sequential(funs: &[FlatFun]) -> bool
    ensures { result ≡ sequential_procs (flat_procs_of funs.now) }
{
    'each: for fun in funs {
        if !is_sequential_block(&fun.body) {
            return false;
        }
    }
    true
}

#[cycle(sequential)]
fn is_sequential_block(block: &FlatBlock) -> bool
    ensures { result ≡ sequential (flats_of block.now).binds }
{
    are_sequential_binds(block.binds.as_slice())
}

#[cycle(sequential)]
fn are_sequential_binds(binds: &[FlatBind]) -> bool
    ensures { result ≡ sequential (binds_of binds.now) }
{
    'each: for bind in binds {
        if !is_sequential_bind(bind) {
            return false;
        }
    }
    true
}

#[cycle(sequential)]
fn is_sequential_bind(bind: &FlatBind) -> bool
    ensures { (rest : Binds) → sequential (before_of bind.now rest) ≡ (result && sequential rest) }
{
    match bind {
        FlatBind::If { yes, no, .. } => is_sequential_block(yes) && is_sequential_block(no),
        FlatBind::While { cond, body, .. } => {
            are_sequential_binds(cond.as_slice()) && is_sequential_block(body)
        }
        FlatBind::Either { left, right, .. } => {
            is_sequential_block(left) && is_sequential_block(right)
        }
        FlatBind::Par { .. } => false,
        FlatBind::Split { .. } => false,
        FlatBind::Calc { .. } => true,
        FlatBind::Apply { .. } => true,
        FlatBind::Assert { .. } => true,
        FlatBind::Any { .. } => true,
        FlatBind::Call { .. } => true,
    }
}
