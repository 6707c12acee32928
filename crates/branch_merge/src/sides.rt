//! Where the two sides of an `if` meet.

ghost use Rattle.std.specs.Prelude.{◌≡◌, None, IfOk};
ghost use Rattle.branch_merge.specs.Merging.{after_met, meet_fault};
ghost use Rattle.ownership.specs.Entries.{spots_of};
ghost use Rattle.ownership.specs.Faults.{or_next};
ghost use Rattle.ownership.specs.declared.entry.Fault.TheVariants as f;
ghost use Rattle.rule_check.specs.Context as d;

use crate::shapes::first_other;
use crate::slices::unmet;
use ownership::{Context, Entry, Fault};
use sqlite_items::Items;
use std::alloc::{AllocError, Global};

/// A side: the places of the entries that went in it, and its results.
#[derive(Drop)]
pub struct Side {
    /// The places.
    pub went: Items<usize>,
    /// The results.
    pub results: Items<Entry>,
}

/// What went on either side is gone after both, unless they do not meet, which changes nothing.
pub fn meet(
    alloc: Global,
    context: &mut Context,
    left: &Side,
    right: &Side,
) -> Result<Option<Fault>, AllocError>
    ensures fault { IfOk result (λ fault. fault ≡ meet_fault left.now.went right.now.went (spots_of left.now.results) (spots_of right.now.results) context.old.spots) }
    ensures met { IfOk result (λ fault. context.new ≡ after_met fault left.now.went right.now.went context.old) }
    ensures saved { context.new.saved ≡ context.old.saved }
{
    match meet_fault(alloc, context, left, right)? {
        Some(fault) => Ok(Some(fault)),
        None => {
            context.fall(left.went.as_slice())?;
            context.fall(right.went.as_slice())?;
            Ok(None)
        }
    }
}

fn meet_fault(
    alloc: Global,
    context: &Context,
    left: &Side,
    right: &Side,
) -> Result<Option<Fault>, AllocError>
    ensures { IfOk result (λ fault. fault ≡ meet_fault left.now.went right.now.went (spots_of left.now.results) (spots_of right.now.results) context.now.spots) }
{
    match unmet(alloc, context, left.went.as_slice(), right.went.as_slice())? {
        Some(var) => Ok(Some(Fault::Meet(var))),
        None => result_fault(left.results.as_slice(), right.results.as_slice()),
    }
}

fn result_fault(left: &[Entry], right: &[Entry]) -> Result<Option<Fault>, AllocError>
    ensures { IfOk result (λ fault. fault ≡ or_next f.Result (d.first_other 1 (d.shapes_of (spots_of left.now)) (d.shapes_of (spots_of right.now))) None) }
{
    match first_other(left, right)? {
        Some(number) => Ok(Some(Fault::Result(number))),
        None => Ok(None),
    }
}
