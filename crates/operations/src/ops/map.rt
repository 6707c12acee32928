//! Operations on maps.

ghost use Rattle.std.specs.Prelude.{IfOk, ◌∷◌, []};
ghost use Rattle.nres_core.specs.Ops.{op_out};
ghost use Rattle.nres_core.specs.declared.op.Op.TheVariants as o;
ghost use Rattle.nres_core.specs.declared.value.Value.TheVariants as v;
ghost use Rattle.operations.specs.Gives.{GivesFirst};

use super::results::{if_room, ordered, single};
use nres_core::{NumMap, Op, Value};
use sqlite_items::Items;
use std::alloc::{AllocError, Global};

/// The results of an operation on a map and what follows it.
pub(crate) fn on_map(
    alloc: Global,
    op: Op,
    map: &NumMap,
    others: &[Value],
) -> Result<Option<Items<Value>>, AllocError>
    ensures { IfOk result (λ results. GivesFirst results (op_out op (v.Map map.now ∷ others.now))) }
{
    match others {
        [] => alone(alloc, op, map),
        [Value::Nat(key)] => at_key(alloc, op, map, *key),
        [Value::Nat(key), Value::Nat(number)] => with_pair(alloc, op, map, *key, *number),
        _ => Ok(None),
    }
}

fn alone(alloc: Global, op: Op, map: &NumMap) -> Result<Option<Items<Value>>, AllocError>
    ensures { IfOk result (λ results. GivesFirst results (op_out op (v.Map map.now ∷ []))) }
{
    match op {
        Op::SizeMap => single(alloc, Value::Nat(map.len() as u64)),
        Op::Keys => ordered(alloc, map.keys()?),
        Op::CopyMap => single(alloc, Value::Map(map.share()?)),
        _ => Ok(None),
    }
}

fn at_key(alloc: Global, op: Op, map: &NumMap, key: u64) -> Result<Option<Items<Value>>, AllocError>
    ensures { IfOk result (λ results. GivesFirst results (op_out op (v.Map map.now ∷ v.Nat key ∷ []))) }
{
    match op {
        Op::HasMap => single(alloc, Value::Bool(map.contains(key))),
        Op::Lookup => lookup(alloc, map, key),
        Op::Del => single(alloc, Value::Map(map.without(key)?)),
        _ => Ok(None),
    }
}

fn with_pair(
    alloc: Global,
    op: Op,
    map: &NumMap,
    key: u64,
    number: u64,
) -> Result<Option<Items<Value>>, AllocError>
    ensures { IfOk result (λ results. GivesFirst results (op_out op (v.Map map.now ∷ v.Nat key ∷ v.Nat number ∷ []))) }
{
    match op {
        Op::Put => put(alloc, map, key, number),
        _ => Ok(None),
    }
}

fn lookup(alloc: Global, map: &NumMap, key: u64) -> Result<Option<Items<Value>>, AllocError>
    ensures { IfOk result (λ results. GivesFirst results (op_out o.Lookup (v.Map map.now ∷ v.Nat key ∷ []))) }
{
    match map.get(key) {
        Some(number) => single(alloc, Value::Nat(number)),
        None => Ok(None),
    }
}

fn put(
    alloc: Global,
    map: &NumMap,
    key: u64,
    number: u64,
) -> Result<Option<Items<Value>>, AllocError>
    ensures { IfOk result (λ results. GivesFirst results (op_out o.Put (v.Map map.now ∷ v.Nat key ∷ v.Nat number ∷ []))) }
{
    let larger = map.with(key, number)?;
    if_room(alloc, larger.len(), Value::Map(larger))
}
