//! Refusals of steps.

ghost use Rattle.std.specs.Prelude.{◌≡◌, IfOk};
ghost use Rattle.ownership.specs.Entries.{spots_of};
ghost use Rattle.ownership.specs.Faults.{why_of};
ghost use Rattle.rule_check.specs.Context.{reps_of};
ghost use Rattle.rule_check.specs.Steps.{refused};

use nres_core::{Place, Refusal, Why};
use ownership::{Entry, Fault};
use refusals::{arg_name, name_of, refusal};
use sqlite_items::Items;
use std::alloc::{AllocError, Global};
use target_code::{Name, Rep};

/// The reason that is given for a fault, with the names of its variables.
pub fn why(alloc: Global, names: &[Name], fault: Fault) -> Result<Why, AllocError>
    ensures { IfOk result (λ why. why ≡ why_of names.now fault) }
{
    match fault {
        Fault::Missing => Ok(Why::Missing),
        Fault::Gone(var) => Ok(Why::Gone(name_of(alloc, names, var)?)),
        Fault::Held(var) => Ok(Why::Held(name_of(alloc, names, var)?)),
        Fault::Twice(var) => Ok(Why::Twice(name_of(alloc, names, var)?)),
        Fault::Fact(arg, bound) => Ok(Why::Fact(arg_name(alloc, names, arg)?, bound)),
        Fault::Meet(var) => Ok(Why::Meet(name_of(alloc, names, var)?)),
        Fault::Tag(var) => Ok(Why::Tag(name_of(alloc, names, var)?)),
        Fault::Result(number) => Ok(Why::Result(number)),
    }
}

/// The representations of entries.
pub fn reps(alloc: Global, entries: &[Entry]) -> Result<Items<Rep>, AllocError>
    ensures { IfOk result (λ reps. reps ≡ reps_of (spots_of entries.now)) }
{
    let mut reps = Items::new(alloc);
    'each: for entry in entries {
        reps.push(entry.rep)?;
    }
    Ok(reps)
}

/// The refusal of a step at a place: its word, the representations of these entries, and why.
pub fn refuse(
    alloc: Global,
    names: &[Name],
    place: Place,
    word: &[u8],
    entries: &[Entry],
    fault: Fault,
) -> Result<Refusal, AllocError>
    ensures { IfOk result (λ r. r ≡ refused place word.now (reps_of (spots_of entries.now)) (why_of names.now fault)) }
{
    let reps = reps(alloc, entries)?;
    match why(alloc, names, fault) {
        Ok(why) => refusal(alloc, place, word, reps, why),
        Err(error) => {
            drop(reps);
            Err(error)
        }
    }
}
