//! What is wrong with a value.

ghost use Rattle.std.specs.Prelude.{ℕ, List, ◌≡◌, IfOk, map};
ghost use Rattle.inputs.specs.Inputs as rules;

use crate::refusal::InputFault;
use crate::wanted::Need;
use containers::Nums;
use nres_core::{Ty, Value};
use std::alloc::AllocError;

/// What is wrong with a value, by what the name asks for and by an earlier line of the name.
pub(crate) fn fault_of(
    need: Option<Need>,
    is_given: bool,
    value: &Value,
) -> Result<Option<InputFault>, AllocError>
    ensures { IfOk result (λ fault. fault ≡ rules.value_fault need is_given value.now) }
{
    match need {
        None => Ok(Some(InputFault::Unknown)),
        Some(_) if is_given => Ok(Some(InputFault::Twice)),
        Some(need) if has_type(need.ty, value) => misfit(need.bound, value),
        Some(_) => Ok(Some(InputFault::Type_)),
    }
}

/// Whether a value has a type.
fn has_type(ty: Ty, value: &Value) -> bool
    ensures { result ≡ rules.has_type ty value.now }
{
    matches!(
        (ty, value),
        (Ty::Nat, Value::Nat(_))
            | (Ty::Bool, Value::Bool(_))
            | (Ty::List, Value::List(_))
            | (Ty::Set, Value::Set(_))
            | (Ty::Map, Value::Map(_))
            | (Ty::Bag, Value::Bag(_))
    )
}

/// The first number that is not below a bound.
fn first_from(numbers: &[u64], bound: u64) -> Option<u64>
    ensures { result ≡ rules.first_from bound numbers.now }
{
    for number in numbers {
        if *number >= bound {
            return Some(*number);
        }
    }
    None
}

/// The fault that it is, where there is one.
fn first_of(numbers: &Nums, bound: u32) -> Result<Option<InputFault>, AllocError>
    ensures { IfOk result (λ fault. fault ≡ rules.at_fault (rules.first_from bound numbers.now)) }
{
    let numbers = numbers.to_vec()?;
    match first_from(numbers.as_slice(), u64::from(bound)) {
        Some(number) => Ok(Some(InputFault::Fit(number))),
        None => Ok(None),
    }
}

/// The least element or key of a value that is not below its bound, where there is one.
fn misfit(bound: Option<u32>, value: &Value) -> Result<Option<InputFault>, AllocError>
    ensures { IfOk result (λ fault. fault ≡ rules.at_fault (rules.outside bound value.now)) }
{
    match (bound, value) {
        (Some(bound), Value::Set(set)) => first_of(&set.items()?, bound),
        (Some(bound), Value::Map(map)) => first_of(&map.keys()?, bound),
        _ => Ok(None),
    }
}
