//! Operations on multisets.

ghost use Rattle.std.specs.Prelude.{IfOk, ◌∷◌, []};
ghost use Rattle.nres_core.specs.Ops.{op_out};
ghost use Rattle.nres_core.specs.declared.op.Op.TheVariants as o;
ghost use Rattle.nres_core.specs.declared.value.Value.TheVariants as v;
ghost use Rattle.operations.specs.Gives.{GivesFirst};

use super::results::{MOST, pair, single};
use nres_core::{NumBag, Op, Value};
use sqlite_items::Items;
use std::alloc::{AllocError, Global};

/// The results of an operation on a multiset and what follows it.
pub(crate) fn on_bag(
    alloc: Global,
    op: Op,
    bag: &NumBag,
    others: &[Value],
) -> Result<Option<Items<Value>>, AllocError>
    ensures { IfOk result (λ results. GivesFirst results (op_out op (v.Bag bag.now ∷ others.now))) }
{
    match others {
        [] => alone(alloc, op, bag),
        [Value::Nat(number)] => with_number(alloc, op, bag, *number),
        _ => Ok(None),
    }
}

fn alone(alloc: Global, op: Op, bag: &NumBag) -> Result<Option<Items<Value>>, AllocError>
    ensures { IfOk result (λ results. GivesFirst results (op_out op (v.Bag bag.now ∷ []))) }
{
    match op {
        Op::SizeBag => single(alloc, Value::Nat(bag.len() as u64)),
        Op::Minimum => minimum(alloc, bag),
        Op::TakeMin => take_min(alloc, bag),
        Op::CopyBag => single(alloc, Value::Bag(bag.share()?)),
        _ => Ok(None),
    }
}

fn with_number(
    alloc: Global,
    op: Op,
    bag: &NumBag,
    number: u64,
) -> Result<Option<Items<Value>>, AllocError>
    ensures { IfOk result (λ results. GivesFirst results (op_out op (v.Bag bag.now ∷ v.Nat number ∷ []))) }
{
    match op {
        Op::Add => add(alloc, bag, number),
        _ => Ok(None),
    }
}

fn minimum(alloc: Global, bag: &NumBag) -> Result<Option<Items<Value>>, AllocError>
    ensures { IfOk result (λ results. GivesFirst results (op_out o.Minimum (v.Bag bag.now ∷ []))) }
{
    match bag.least() {
        Some(number) => single(alloc, Value::Nat(number)),
        None => Ok(None),
    }
}

fn take_min(alloc: Global, bag: &NumBag) -> Result<Option<Items<Value>>, AllocError>
    ensures { IfOk result (λ results. GivesFirst results (op_out o.TakeMin (v.Bag bag.now ∷ []))) }
{
    match bag.least() {
        Some(number) => pair(alloc, Value::Nat(number), Value::Bag(bag.without_least()?)),
        None => Ok(None),
    }
}

fn add(alloc: Global, bag: &NumBag, number: u64) -> Result<Option<Items<Value>>, AllocError>
    ensures { IfOk result (λ results. GivesFirst results (op_out o.Add (v.Bag bag.now ∷ v.Nat number ∷ []))) }
{
    if bag.len() as u64 >= MOST {
        return Ok(None);
    }
    single(alloc, Value::Bag(bag.with(number)?))
}
