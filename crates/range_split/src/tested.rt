//! What is tested before the blocks of `par` and of `split`.

ghost use Rattle.std.specs.Prelude.{◌≡◌, ◌++◌, false, IfOk};
ghost use Rattle.ownership.specs.Entries.{spot_of};
ghost use Rattle.range_split.specs.Faults.{list_fault, par_fault, split_fault};
ghost use Rattle.rule_check.specs.Context as d;

use crate::located::first_missed;
use ownership::{Context, Entry, Fault, Hold, var_entry};
use sqlite_items::Items;
use std::alloc::{AllocError, Global};
use target_code::Rep;

/// Why `par` is refused, before its blocks: the oldest container is named that is gone, of those that a branch uses.
pub fn par_fault(
    alloc: Global,
    context: &Context,
    left: &[u32],
    right: &[u32],
) -> Result<Option<Fault>, AllocError>
    ensures { IfOk result (λ fault. fault ≡ par_fault context.now.spots left.now right.now) }
{
    let uses = joined(alloc, left, right)?;
    let missed = first_missed(alloc, context, uses.as_slice())?;
    match missed {
        Some(variable) => Ok(Some(Fault::Gone(variable))),
        None => Ok(None),
    }
}

/// Why `split` is refused, before its blocks, in this order: its list is gone, is none, or must stay; then as `par` is, for what the
/// blocks use beside the list.
pub fn split_fault(
    alloc: Global,
    context: &Context,
    list: u32,
    left: &[u32],
    right: &[u32],
) -> Result<Option<Fault>, AllocError>
    requires left { d.is_among list left.now ≡ false }
    requires right { d.is_among list right.now ≡ false }
    ensures { IfOk result (λ fault. fault ≡ split_fault context.now.spots list left.now right.now) }
{
    match list_fault(var_entry(context, list)) {
        Some(fault) => Ok(Some(fault)),
        None => par_fault(alloc, context, left, right),
    }
}

fn list_fault(entry: Entry) -> Option<Fault>
    ensures { result ≡ list_fault (spot_of entry) }
{
    if !matches!(entry.rep, Rep::Word | Rep::Flag) && matches!(entry.hold, Hold::Gone) {
        return Some(Fault::Gone(entry.var));
    }
    if !matches!(entry.rep, Rep::Array | Rep::Slice) {
        return Some(Fault::Missing);
    }
    match entry.hold {
        Hold::Kept => Some(Fault::Held(entry.var)),
        _ => None,
    }
}

fn joined(alloc: Global, left: &[u32], right: &[u32]) -> Result<Items<u32>, AllocError>
    ensures { IfOk result (λ uses. uses ≡ left.now ++ right.now) }
{
    let mut uses = Items::from_slice(alloc, left)?;
    uses.append(Items::from_slice(alloc, right)?)?;
    Ok(uses)
}
