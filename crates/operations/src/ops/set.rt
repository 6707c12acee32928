//! Operations on sets.

ghost use Rattle.std.specs.Prelude.{IfOk, ◌∷◌, []};
ghost use Rattle.nres_core.specs.Ops.{op_out};
ghost use Rattle.nres_core.specs.declared.op.Op.TheVariants as o;
ghost use Rattle.nres_core.specs.declared.value.Value.TheVariants as v;
ghost use Rattle.operations.specs.Gives.{GivesFirst};

use super::results::{if_room, ordered, single};
use nres_core::{NumSet, Op, Value};
use sqlite_items::Items;
use std::alloc::{AllocError, Global};

/// The results of an operation on a set and what follows it.
pub(crate) fn on_set(
    alloc: Global,
    op: Op,
    set: &NumSet,
    others: &[Value],
) -> Result<Option<Items<Value>>, AllocError>
    ensures { IfOk result (λ results. GivesFirst results (op_out op (v.Set set.now ∷ others.now))) }
{
    match others {
        [] => alone(alloc, op, set),
        [Value::Nat(number)] => with_number(alloc, op, set, *number),
        [Value::Set(other)] => with_set(alloc, op, set, other),
        _ => Ok(None),
    }
}

fn alone(alloc: Global, op: Op, set: &NumSet) -> Result<Option<Items<Value>>, AllocError>
    ensures { IfOk result (λ results. GivesFirst results (op_out op (v.Set set.now ∷ []))) }
{
    match op {
        Op::SizeSet => single(alloc, Value::Nat(set.len() as u64)),
        Op::Pick => pick(alloc, set),
        Op::Elems => ordered(alloc, set.items()?),
        Op::CopySet => single(alloc, Value::Set(set.share()?)),
        _ => Ok(None),
    }
}

fn with_number(
    alloc: Global,
    op: Op,
    set: &NumSet,
    number: u64,
) -> Result<Option<Items<Value>>, AllocError>
    ensures { IfOk result (λ results. GivesFirst results (op_out op (v.Set set.now ∷ v.Nat number ∷ []))) }
{
    match op {
        Op::HasSet => single(alloc, Value::Bool(set.contains(number))),
        Op::Insert => insert(alloc, set, number),
        Op::Remove => single(alloc, Value::Set(set.without(number)?)),
        _ => Ok(None),
    }
}

fn with_set(
    alloc: Global,
    op: Op,
    set: &NumSet,
    other: &NumSet,
) -> Result<Option<Items<Value>>, AllocError>
    ensures { IfOk result (λ results. GivesFirst results (op_out op (v.Set set.now ∷ v.Set other.now ∷ []))) }
{
    match op {
        Op::Union => union(alloc, set, other),
        _ => Ok(None),
    }
}

fn pick(alloc: Global, set: &NumSet) -> Result<Option<Items<Value>>, AllocError>
    ensures { IfOk result (λ results. GivesFirst results (op_out o.Pick (v.Set set.now ∷ []))) }
{
    match set.least() {
        Some(number) => single(alloc, Value::Nat(number)),
        None => Ok(None),
    }
}

fn insert(alloc: Global, set: &NumSet, number: u64) -> Result<Option<Items<Value>>, AllocError>
    ensures { IfOk result (λ results. GivesFirst results (op_out o.Insert (v.Set set.now ∷ v.Nat number ∷ []))) }
{
    let larger = set.with(number)?;
    if_room(alloc, larger.len(), Value::Set(larger))
}

fn union(alloc: Global, set: &NumSet, other: &NumSet) -> Result<Option<Items<Value>>, AllocError>
    ensures { IfOk result (λ results. GivesFirst results (op_out o.Union (v.Set set.now ∷ v.Set other.now ∷ []))) }
{
    let both = set.union(other)?;
    if_room(alloc, both.len(), Value::Set(both))
}
