//! Operations on lists.

ghost use Rattle.std.specs.Prelude.{IfOk, ◌∷◌, []};
ghost use Rattle.nres_core.specs.Ops.{op_out};
ghost use Rattle.nres_core.specs.declared.op.Op.TheVariants as o;
ghost use Rattle.nres_core.specs.declared.value.Value.TheVariants as v;
ghost use Rattle.operations.specs.Gives.{GivesFirst};

use super::results::{if_room, pair, single};
use nres_core::{Nums, Op, Value};
use sqlite_items::Items;
use std::alloc::{AllocError, Global};

/// The results of an operation on a list and what follows it.
pub(crate) fn on_list(
    alloc: Global,
    op: Op,
    list: &Nums,
    others: &[Value],
) -> Result<Option<Items<Value>>, AllocError>
    ensures { IfOk result (λ results. GivesFirst results (op_out op (v.List list.now ∷ others.now))) }
{
    match others {
        [] => alone(alloc, op, list),
        [Value::Nat(number)] => with_number(alloc, op, list, *number),
        [Value::Nat(at), Value::Nat(number)] => with_two(alloc, op, list, *at, *number),
        _ => Ok(None),
    }
}

fn alone(alloc: Global, op: Op, list: &Nums) -> Result<Option<Items<Value>>, AllocError>
    ensures { IfOk result (λ results. GivesFirst results (op_out op (v.List list.now ∷ []))) }
{
    match op {
        Op::Len => single(alloc, Value::Nat(list.len() as u64)),
        Op::Pop => pop(alloc, list),
        Op::CopyList => single(alloc, Value::List(list.share()?)),
        _ => Ok(None),
    }
}

fn with_number(
    alloc: Global,
    op: Op,
    list: &Nums,
    number: u64,
) -> Result<Option<Items<Value>>, AllocError>
    ensures { IfOk result (λ results. GivesFirst results (op_out op (v.List list.now ∷ v.Nat number ∷ []))) }
{
    match op {
        Op::Get => get(alloc, list, number),
        Op::Push => push(alloc, list, number),
        _ => Ok(None),
    }
}

fn with_two(
    alloc: Global,
    op: Op,
    list: &Nums,
    at: u64,
    number: u64,
) -> Result<Option<Items<Value>>, AllocError>
    ensures { IfOk result (λ results. GivesFirst results (op_out op (v.List list.now ∷ v.Nat at ∷ v.Nat number ∷ []))) }
{
    match op {
        Op::SetAt => set_at(alloc, list, at, number),
        Op::Swap => swap(alloc, list, at, number),
        _ => Ok(None),
    }
}

fn pop(alloc: Global, list: &Nums) -> Result<Option<Items<Value>>, AllocError>
    ensures { IfOk result (λ results. GivesFirst results (op_out o.Pop (v.List list.now ∷ []))) }
{
    let at = list.len().saturating_sub(1);
    let Some(last) = list.get(at) else {
        return Ok(None);
    };
    let (others, _) = list.split_at(at)?;
    pair(alloc, Value::Nat(last), Value::List(others))
}

fn get(alloc: Global, list: &Nums, at: u64) -> Result<Option<Items<Value>>, AllocError>
    ensures { IfOk result (λ results. GivesFirst results (op_out o.Get (v.List list.now ∷ v.Nat at ∷ []))) }
{
    match list.get(at as usize) {
        Some(number) => single(alloc, Value::Nat(number)),
        None => Ok(None),
    }
}

fn push(alloc: Global, list: &Nums, number: u64) -> Result<Option<Items<Value>>, AllocError>
    ensures { IfOk result (λ results. GivesFirst results (op_out o.Push (v.List list.now ∷ v.Nat number ∷ []))) }
{
    let longer = list.with(number)?;
    if_room(alloc, longer.len(), Value::List(longer))
}

fn set_at(
    alloc: Global,
    list: &Nums,
    at: u64,
    number: u64,
) -> Result<Option<Items<Value>>, AllocError>
    ensures { IfOk result (λ results. GivesFirst results (op_out o.SetAt (v.List list.now ∷ v.Nat at ∷ v.Nat number ∷ []))) }
{
    let at = at as usize;
    if at >= list.len() {
        return Ok(None);
    }
    single(alloc, Value::List(list.with_set(at, number)?))
}

fn swap(alloc: Global, list: &Nums, at: u64, to: u64) -> Result<Option<Items<Value>>, AllocError>
    ensures { IfOk result (λ results. GivesFirst results (op_out o.Swap (v.List list.now ∷ v.Nat at ∷ v.Nat to ∷ []))) }
{
    let (at, to) = (at as usize, to as usize);
    match (list.get(at), list.get(to)) {
        (Some(first), Some(second)) => {
            let list = list.with_set(at, second)?.with_set(to, first)?;
            single(alloc, Value::List(list))
        }
        _ => Ok(None),
    }
}
