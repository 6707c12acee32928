//! Operations, on their first choices: the least element, or the ascending order.

ghost use Rattle.std.specs.Prelude.{IfOk, ◌∷◌, []};
ghost use Rattle.nres_core.specs.Ops.{op_out};
ghost use Rattle.nres_core.specs.declared.op.Op.TheVariants as o;
ghost use Rattle.nres_core.specs.declared.value.Value.TheVariants as v;
ghost use Rattle.operations.specs.Gives.{GivesFirst};

mod bag;
mod list;
mod map;
mod results;
mod set;

use nres_core::{NumBag, NumMap, NumSet, Nums, Op, Value};
use results::{MOST, single};
use sqlite_items::Items;
use std::alloc::{AllocError, Global};

/// The results of an operation on its arguments, on its first choice: the least element, or the ascending order. None where it fails.
pub fn operate(alloc: Global, op: Op, args: &[Value]) -> Result<Option<Items<Value>>, AllocError>
    ensures { IfOk result (λ results. GivesFirst results (op_out op args.now)) }
{
    match args {
        [] => on_nothing(alloc, op),
        [Value::Nat(number)] => on_number(alloc, op, *number),
        [Value::List(list), others @ ..] => list::on_list(alloc, op, list, others),
        [Value::Set(set), others @ ..] => set::on_set(alloc, op, set, others),
        [Value::Map(map), others @ ..] => map::on_map(alloc, op, map, others),
        [Value::Bag(bag), others @ ..] => bag::on_bag(alloc, op, bag, others),
        _ => Ok(None),
    }
}

fn on_nothing(alloc: Global, op: Op) -> Result<Option<Items<Value>>, AllocError>
    ensures { IfOk result (λ results. GivesFirst results (op_out op [])) }
{
    match op {
        Op::Nil => single(alloc, Value::List(Nums::new(alloc))),
        Op::EmptySet => single(alloc, Value::Set(NumSet::new(alloc))),
        Op::EmptyMap => single(alloc, Value::Map(NumMap::new(alloc))),
        Op::EmptyBag => single(alloc, Value::Bag(NumBag::new(alloc))),
        _ => Ok(None),
    }
}

fn on_number(alloc: Global, op: Op, number: u64) -> Result<Option<Items<Value>>, AllocError>
    ensures { IfOk result (λ results. GivesFirst results (op_out op (v.Nat number ∷ []))) }
{
    match op {
        Op::Zeros => zeros(alloc, number),
        _ => Ok(None),
    }
}

#[tactic(auto, using(crate::proofs::Zeros::zeros_repeated))]
fn zeros(alloc: Global, count: u64) -> Result<Option<Items<Value>>, AllocError>
    ensures { IfOk result (λ results. GivesFirst results (op_out o.Zeros (v.Nat count ∷ []))) }
{
    if count > MOST {
        return Ok(None);
    }
    let list = Nums::repeated(alloc, 0, count as usize)?;
    single(alloc, Value::List(list))
}
