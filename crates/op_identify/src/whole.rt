//! Whole specifications.

ghost use Rattle.std.specs.Prelude.{◌≡◌, IfOk};
ghost use Rattle.nres_rules.specs.Identify.{FunIdentifies, Identifies, id_blk};
ghost use Rattle.nres_core.specs.Mirror.{blk_of, id_blk_of};
ghost use Rattle.nres_rules.specs.Types.{HasTyping};
ghost use Rattle.op_identify.specs.Fronts.{FunsBegin};

use crate::block::block;
use crate::copy;
use crate::ops::Ops;
use nres_core::{Block, Fun, IdBlock, IdFun, Identified, Param, Shown, Spec, Typing};
use sqlite_items::Items;
use std::alloc::{AllocError, Global};
use target_code::Name;

/// The specification with each word replaced by the operation that its typing gives it.
pub fn identify(alloc: Global, spec: &Spec, typing: &Typing) -> Result<Identified, AllocError>
    requires { HasTyping spec.now typing.now }
    ensures { IfOk result (λ tree. Identifies spec.now typing.now tree) }
{
    let mut ops = Ops::new(typing.words.as_slice());
    let (params, shown) = (spec.params.as_slice(), spec.shown.as_slice());
    let head = head(alloc, &spec.name, params, shown)?;
    match bodies(alloc, &spec.body, spec.funs.as_slice(), &mut ops) {
        Ok((body, funs)) => {
            let (name, params, shown) = head;
            Ok(Identified {
                name,
                params,
                shown,
                body,
                funs,
            })
        }
        Err(error) => {
            drop(head);
            Err(error)
        }
    }
}

/// A name, its parameters and what it shows.
fn head(
    alloc: Global,
    name: &Name,
    params: &[Param],
    shown: &[Shown],
) -> Result<(Name, Items<Param>, Items<Shown>), AllocError>
    ensures name { IfOk result (λ x. x.0 ≡ name.now) }
    ensures params { IfOk result (λ x. x.1 ≡ params.now) }
    ensures shown { IfOk result (λ x. x.2 ≡ shown.now) }
{
    let name = name.copy(alloc)?;
    let params = copy::params(alloc, params)?;
    let shown = Items::from_slice(alloc, shown)?;
    Ok((name, params, shown))
}

/// What the specification computes, and then the procedures.
fn bodies(
    alloc: Global,
    tree: &Block,
    list: &[Fun],
    ops: &mut Ops,
) -> Result<(IdBlock, Items<IdFun>), AllocError>
    ensures body { IfOk result (λ x. id_blk_of x.0 ≡ (id_blk (blk_of tree.now) ops.old).0) }
    ensures funs { IfOk result (λ x. FunsBegin list.now (id_blk (blk_of tree.now) ops.old).1 x.1 ops.new) }
{
    let body = block(alloc, tree, ops)?;
    match funs(alloc, list, ops) {
        Ok(funs) => Ok((body, funs)),
        Err(error) => {
            drop(body);
            Err(error)
        }
    }
}

/// The procedures, in the order of the text.
fn funs(alloc: Global, list: &[Fun], ops: &mut Ops) -> Result<Items<IdFun>, AllocError>
    ensures { IfOk result (λ same. FunsBegin list.now ops.old same ops.new) }
{
    let mut same = Items::new(alloc);
    'each: for item in list {
        same.push(fun(alloc, item, ops)?)?;
    }
    Ok(same)
}

fn fun(alloc: Global, fun: &Fun, ops: &mut Ops) -> Result<IdFun, AllocError>
    ensures same { IfOk result (λ f. FunIdentifies fun.now ops.old f) }
    ensures left { IfOk result (λ f. ops.new ≡ (id_blk (blk_of fun.now.body) ops.old).1) }
{
    let (params, shown) = (fun.params.as_slice(), fun.shown.as_slice());
    let head = head(alloc, &fun.name, params, shown)?;
    match block(alloc, &fun.body, ops) {
        Ok(body) => {
            let (name, params, shown) = head;
            Ok(IdFun {
                name,
                place: fun.place,
                params,
                shown,
                body,
            })
        }
        Err(error) => {
            drop(head);
            Err(error)
        }
    }
}
