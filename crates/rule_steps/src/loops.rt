//! The start of a loop, and the end of a turn.

ghost use Rattle.std.specs.Prelude.{◌≡◌, List, length, Result, IfOk, codes};
ghost use Rattle.nres_core.specs.FlatTree.{flats_of};
ghost use Rattle.nres_core.specs.declared.flat.Arg.{Arg as ArgOf};
ghost use Rattle.nres_core.specs.declared.refusal.Refusal.{Refusal as RefusalOf};
ghost use Rattle.nres_core.specs.declared.refusal.Why.TheVariants as w;
ghost use Rattle.ownership.specs.Entries.{spots_of};
ghost use Rattle.rule_check.specs.Context as d;
ghost use Rattle.rule_check.specs.Context.{Ctx};
ghost use Rattle.rule_check.specs.Steps as steps;
ghost use Rattle.rule_check.specs.Steps.{Book, Moved};
ghost use Rattle.rule_steps.specs.Loops.{or_refused, started_as};

use crate::ends::finish;
use crate::refusing::refuse;
use branch_merge::first_other;
use nres_core::{FlatBlock, Place, Refusal};
use ownership::{Context, Entry, Fault, take_results};
use std::alloc::{AllocError, Global};
use target_code::Name;

/// The starting values of a loop, with these entries, move in, unless that is refused, which changes nothing.
pub fn start_loop(
    alloc: Global,
    names: &[Name],
    context: &mut Context,
    place: Place,
    starts: &[Entry],
) -> Result<Option<Refusal>, AllocError>
    ensures started { IfOk result (λ refused. (book : Book) (x : Ctx) (us : List ArgOf) → book.names ≡ names.now → x.spots ≡ context.old.spots → spots_of starts.now ≡ d.looked_up x.spots us
        → steps.started book x place us ≡ started_as refused (d.shapes_of (spots_of starts.now)) context.new.spots) }
    ensures saved { context.new.saved ≡ context.old.saved }
{
    match take_results(alloc, context, starts)? {
        None => Ok(None),
        Some(fault) => {
            let refusal = refuse(alloc, names, place, b"while", &[], fault)?;
            Ok(Some(refusal))
        }
    }
}

/// The end of a turn, whose block began with so many entries: its results are what the loop started with.
pub fn end_turn(
    alloc: Global,
    names: &[Name],
    context: &mut Context,
    count: usize,
    starts: &[Entry],
    block: &FlatBlock,
) -> Result<Option<Refusal>, AllocError>
    ensures turned { IfOk result (λ refused. (book : Book) (m : Moved) (x : Ctx) (next : Result Ctx RefusalOf) → book.names ≡ names.now → x.spots ≡ context.old.spots → length m.spots ≡ count → m.shapes ≡ d.shapes_of (spots_of starts.now)
        → steps.on_ok (steps.turned book m x (flats_of block.now).ending) (λ m2. next) ≡ or_refused refused next) }
    ensures saved { context.new.saved ≡ context.old.saved }
{
    match finish(alloc, names, context, count, None, block)? {
        Err(refusal) => Ok(Some(refusal)),
        Ok(results) => other_result(alloc, names, block.place, starts, results.as_slice()),
    }
}

fn other_result(
    alloc: Global,
    names: &[Name],
    place: Place,
    starts: &[Entry],
    results: &[Entry],
) -> Result<Option<Refusal>, AllocError>
    ensures { IfOk result (λ refused. (next : Result Ctx RefusalOf)
        → steps.unless (d.first_other 1 (d.shapes_of (spots_of starts.now)) (d.shapes_of (spots_of results.now))) (λ k. steps.refused place (codes "return") (d.reps_of (spots_of results.now)) (w.Result k)) next ≡ or_refused refused next) }
{
    match first_other(starts, results)? {
        None => Ok(None),
        Some(number) => {
            let refusal = refuse(
                alloc,
                names,
                place,
                b"return",
                results,
                Fault::Result(number),
            )?;
            Ok(Some(refusal))
        }
    }
}
