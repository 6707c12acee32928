//! Results.

ghost use Rattle.std.specs.Prelude.{IfOk, ◌∷◌, []};
ghost use Rattle.nres_core.specs.Ops.{one, if_room, in_some_order};
ghost use Rattle.nres_core.specs.Runs.{Done};
ghost use Rattle.nres_core.specs.declared.value.Value.TheVariants as v;
ghost use Rattle.operations.specs.Gives.{GivesFirst};

use nres_core::{Nums, Value};
use sqlite_items::Items;
use std::alloc::{AllocError, Global};

/// The most elements that a container has.
pub(crate) const MOST: u64 = 0xffff_ffff;

/// One value.
pub(crate) fn single(alloc: Global, value: Value) -> Result<Option<Items<Value>>, AllocError>
    ensures { IfOk result (λ results. GivesFirst results (one value)) }
{
    Ok(Some(Items::from_vec(vec![in alloc; value]?)))
}

/// Two values.
pub(crate) fn pair(
    alloc: Global,
    first: Value,
    second: Value,
) -> Result<Option<Items<Value>>, AllocError>
    ensures { IfOk result (λ results. GivesFirst results (Done (first ∷ second ∷ []))) }
{
    Ok(Some(Items::from_vec(vec![in alloc; first, second]?)))
}

/// A container of so many elements, if that is not too many.
pub(crate) fn if_room(
    alloc: Global,
    size: usize,
    value: Value,
) -> Result<Option<Items<Value>>, AllocError>
    ensures { IfOk result (λ results. GivesFirst results (if_room size value)) }
{
    if size as u64 > MOST {
        return Ok(None);
    }
    single(alloc, value)
}

/// A list in its own order, if it is not too long.
pub(crate) fn ordered(alloc: Global, list: Nums) -> Result<Option<Items<Value>>, AllocError>
    ensures { IfOk result (λ results. GivesFirst results (in_some_order list)) }
{
    if list.len() as u64 > MOST {
        return Ok(None);
    }
    single(alloc, Value::List(list))
}
