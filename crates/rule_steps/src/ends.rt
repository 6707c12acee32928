//! The ends of blocks.

ghost use Rattle.std.specs.Prelude.{◌≡◌, ◌&&◌, nat_eq, None, Some, IfOk};
ghost use Rattle.nres_core.specs.FlatTree.{flats_of};
ghost use Rattle.ownership.specs.Entries.{spots_of};
ghost use Rattle.ownership.specs.Faults.{or_next};
ghost use Rattle.ownership.specs.declared.entry.Fault.TheVariants as f;
ghost use Rattle.rule_check.specs.Context as d;
ghost use Rattle.rule_check.specs.Context.{Ctx};
ghost use Rattle.rule_check.specs.Steps.{Book, ended, first_is};
ghost use Rattle.rule_steps.specs.Ends.{astray_of, end_fault, moved_as};

use crate::refusing::refuse;
use nres_core::{FlatBlock, Refusal};
use ownership::{Context, Entry, Fault, end_block, looked_up, take_results};
use sqlite_items::Items;
use std::alloc::{AllocError, Global};
use target_code::{Name, Rep};

/// The results of a block that began with so many entries and owes a slice of this list, if any: their entries as they were before they
/// moved out, or the refusal.
pub fn finish(
    alloc: Global,
    names: &[Name],
    context: &mut Context,
    count: usize,
    owed: Option<u32>,
    block: &FlatBlock,
) -> Result<Result<Items<Entry>, Refusal>, AllocError>
    ensures ended { IfOk result (λ r. (book : Book) (x : Ctx) → book.names ≡ names.now → x.spots ≡ context.old.spots → ended book count (astray_of owed) x (flats_of block.now).ending ≡ moved_as r context.new.spots) }
    ensures results { IfOk result (λ r. IfOk r (λ results. spots_of results ≡ d.looked_up context.old.spots (flats_of block.now).ending.results)) }
    ensures saved { context.new.saved ≡ context.old.saved }
{
    let results = looked_up(alloc, context, block.results.as_slice())?;
    match end_fault(alloc, context, count, owed, results.as_slice())? {
        None => Ok(Ok(results)),
        Some(fault) => {
            let refusal = refuse(
                alloc,
                names,
                block.place,
                b"return",
                results.as_slice(),
                fault,
            )?;
            Ok(Err(refusal))
        }
    }
}

/// What is refused at the end of a block. Else the results move out.
fn end_fault(
    alloc: Global,
    context: &mut Context,
    count: usize,
    owed: Option<u32>,
    results: &[Entry],
) -> Result<Option<Fault>, AllocError>
    ensures fault { IfOk result (λ fault. fault ≡ end_fault count owed (spots_of results.now) context.old.spots) }
    ensures moved { IfOk result (λ fault. fault ≡ None → context.new.spots ≡ d.all_go (d.vars_of (spots_of results.now)) context.old.spots) }
    ensures saved { context.new.saved ≡ context.old.saved }
{
    match take_results(alloc, context, results)? {
        Some(fault) => Ok(Some(fault)),
        None => Ok(tag_fault(context, count, owed, results)),
    }
}

fn tag_fault(context: &Context, count: usize, owed: Option<u32>, results: &[Entry]) -> Option<Fault>
    ensures { result ≡ or_next f.Tag (astray_of owed (d.shapes_of (spots_of results.now))) (or_next f.Tag (d.first_slice (d.inner count context.now.spots)) None) }
{
    if let Some(var) = astray(owed, results) {
        return Some(Fault::Tag(var));
    }
    match end_block(context, count) {
        Some(var) => Some(Fault::Tag(var)),
        None => None,
    }
}

fn astray(owed: Option<u32>, results: &[Entry]) -> Option<u32>
    ensures { result ≡ astray_of owed (d.shapes_of (spots_of results.now)) }
{
    match owed {
        Some(list) => first_is(list, results),
        None => None,
    }
}

fn first_is(list: u32, results: &[Entry]) -> Option<u32>
    ensures { result ≡ first_is list (d.shapes_of (spots_of results.now)) }
{
    match results {
        [] => Some(list),
        [first, ..] => {
            if is_slice_of(first, list) {
                None
            } else {
                Some(list)
            }
        }
    }
}

fn is_slice_of(entry: &Entry, list: u32) -> bool
    ensures { result ≡ (d.is_slice entry.now.rep && nat_eq entry.now.tag list) }
{
    matches!(entry.rep, Rep::Slice) && entry.tag == list
}
