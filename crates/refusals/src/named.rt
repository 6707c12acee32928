//! The names of what a refusal speaks of, and refusals.

ghost use Rattle.std.specs.Prelude.{◌≡◌, IfOk};
ghost use Rattle.ownership.specs.Faults.{why_of};
ghost use Rattle.rule_check.specs.Steps.{arg_name, name_at, refused};

use nres_core::{Arg, Place, Refusal, Why};
use ownership::Fault;
use sqlite_items::{Items, at};
use std::alloc::{AllocError, Global};
use target_code::{Name, Rep};

/// The name of bytes that are a name.
fn copied(alloc: Global, bytes: &[u8]) -> Result<Name, AllocError>
    ensures { IfOk result (λ name. name ≡ bytes.now) }
{
    match Name::new(alloc, bytes) {
        Ok(name) => Ok(name),
        Err(_) => Err(AllocError),
    }
}

/// The name to which a variable was first bound, or `_` where it has none.
pub fn name_of(alloc: Global, names: &[Name], variable: u32) -> Result<Name, AllocError>
    ensures { IfOk result (λ name. name ≡ name_at names.now variable) }
{
    match at(names, variable as usize) {
        Some(name) => name.copy(alloc),
        None => copied(alloc, b"_"),
    }
}

/// The name of a value: a literal has its digits, or `true` or `false`.
pub fn arg_name(alloc: Global, names: &[Name], arg: Arg) -> Result<Name, AllocError>
    ensures { IfOk result (λ name. name ≡ arg_name names.now arg) }
{
    match arg {
        Arg::Var(variable) => name_of(alloc, names, variable),
        Arg::Num(number) => Name::of_number(alloc, number),
        Arg::Truth(true) => copied(alloc, b"true"),
        Arg::Truth(false) => copied(alloc, b"false"),
    }
}

/// Why a step is refused, with names for the variables.
pub fn why_of(alloc: Global, names: &[Name], fault: Fault) -> Result<Why, AllocError>
    ensures { IfOk result (λ why. why ≡ why_of names.now fault) }
{
    match fault {
        Fault::Missing => Ok(Why::Missing),
        Fault::Gone(variable) => Ok(Why::Gone(name_of(alloc, names, variable)?)),
        Fault::Held(variable) => Ok(Why::Held(name_of(alloc, names, variable)?)),
        Fault::Twice(variable) => Ok(Why::Twice(name_of(alloc, names, variable)?)),
        Fault::Fact(arg, bound) => Ok(Why::Fact(arg_name(alloc, names, arg)?, bound)),
        Fault::Meet(variable) => Ok(Why::Meet(name_of(alloc, names, variable)?)),
        Fault::Tag(variable) => Ok(Why::Tag(name_of(alloc, names, variable)?)),
        Fault::Result(number) => Ok(Why::Result(number)),
    }
}

/// The refusal of a bind at a place: its word, the representations of its arguments, and why.
pub fn refusal(
    alloc: Global,
    place: Place,
    word: &[u8],
    reps: Items<Rep>,
    why: Why,
) -> Result<Refusal, AllocError>
    ensures { IfOk result (λ r. r ≡ refused place word.now reps why) }
{
    match copied(alloc, word) {
        Ok(op) => Ok(Refusal {
            place,
            op,
            reps,
            why,
        }),
        Err(error) => {
            drop((reps, why));
            Err(error)
        }
    }
}
