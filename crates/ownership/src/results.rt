//! Results of a block.

ghost use Rattle.std.specs.Prelude.{◌≡◌, Some, IfOk};
ghost use Rattle.context_laws.specs.Stacks.{spot_in};
ghost use Rattle.ownership.specs.Entries.{spot_of, spots_of};
ghost use Rattle.ownership.specs.Faults.{after_taken, results_fault, slice_at};
ghost use Rattle.rule_check.specs.Context as d;

use crate::args::go_all;
use crate::context::Context;
use crate::entry::{Entry, Fault};
use crate::tests::{first_gone, first_kept, first_twice};
use std::alloc::{AllocError, Global};

/// Results move out: containers among them are gone, unless that is refused, which changes nothing.
pub fn take_results(
    alloc: Global,
    context: &mut Context,
    results: &[Entry],
) -> Result<Option<Fault>, AllocError>
    ensures fault { IfOk result (λ fault. fault ≡ results_fault (spots_of results.now)) }
    ensures taken { IfOk result (λ fault. context.new ≡ after_taken fault (d.vars_of (spots_of results.now)) context.old) }
    ensures saved { context.new.saved ≡ context.old.saved }
{
    let twice = first_twice(alloc, results)?;
    match results_fault(results, twice) {
        Some(fault) => Ok(Some(fault)),
        None => {
            go_all(context, results)?;
            Ok(None)
        }
    }
}

fn results_fault(results: &[Entry], twice: Option<u32>) -> Option<Fault>
    requires { twice ≡ d.first_twice (spots_of results.now) }
    ensures { result ≡ results_fault (spots_of results.now) }
{
    if let Some(var) = first_gone(results) {
        return Some(Fault::Gone(var));
    }
    if let Some(var) = twice {
        return Some(Fault::Twice(var));
    }
    match first_kept(results) {
        Some(var) => Some(Fault::Held(var)),
        None => None,
    }
}

/// The first owned slice, in order of creation, that a block made which began with so many entries.
pub fn end_block(context: &Context, count: usize) -> Option<u32>
    ensures { result ≡ d.first_slice (d.inner count context.now.spots) }
{
    'each: for index in count..context.len() {
        if let Some(var) = owned_slice_at(context, index) {
            return Some(var);
        }
    }
    None
}

/// The variable of an owned slice at a place.
fn owned_slice_at(context: &Context, index: usize) -> Option<u32>
    ensures { result ≡ slice_at (spot_in context.now.spots index) }
{
    match context.get(index) {
        Some(entry) => owned_slice(&entry),
        None => None,
    }
}

fn owned_slice(entry: &Entry) -> Option<u32>
    ensures { result ≡ slice_at (Some (spot_of entry.now)) }
{
    if entry.is_owned_slice() {
        Some(entry.var)
    } else {
        None
    }
}
