//! The places of the entries that variables have.

ghost use Rattle.std.specs.Prelude.{◌≡◌, ◌&&◌, ◌++◌, ◌∷◌, [], ℕ, List, Some, IfOk, OnOk};
ghost use Rattle.std.specs.BTreeSet.{insert_key};
ghost use Rattle.std.specs.Ordering.{nat_cmp};
ghost use Rattle.context_laws.specs.Stacks.{AllDiffer, spot_in};
ghost use Rattle.ownership.specs.Entries.{spot_of};
ghost use Rattle.range_split.specs.Places.{Ascending, Places, gone_one_of, oldest_gone, picked};
ghost use Rattle.rule_check.specs.Context as d;

use ownership::{Context, Entry, Hold};
use std::alloc::{AllocError, Global};
use std::collections::BTreeSet;
use target_code::Rep;

/// The places of the entries of variables in order of creation, each once, the oldest first. A variable without an entry has none.
pub fn places(alloc: Global, context: &Context, uses: &[u32]) -> Result<Vec<usize>, AllocError>
    ensures there { IfOk result (λ places. Places uses.now places.items context.now.spots) }
    ensures ascend { IfOk result (λ places. Ascending places.items) }
{
    let _ = context.len();
    let mut found = BTreeSet::new(alloc);
    'each: for variable in uses {
        note(&mut found, context, *variable)?;
    }
    listed(alloc, found)
}

/// Notes the place of a variable's entry, where it has one.
fn note(found: &mut BTreeSet<usize>, context: &Context, variable: u32) -> Result<(), AllocError>
    requires { AllDiffer context.now.spots }
    ensures there { OnOk result ((us : List ℕ) → Places us found.old.keys context.now.spots → Places (us ++ variable ∷ []) found.new.keys context.now.spots) }
    ensures ascend { OnOk result (Ascending found.old.keys → Ascending found.new.keys) }
{
    match context.index_of(variable) {
        Some(place) => insert(found, place),
        None => Ok(()),
    }
}

fn insert(found: &mut BTreeSet<usize>, place: usize) -> Result<(), AllocError>
    ensures { OnOk result (found.new.keys ≡ insert_key nat_cmp found.old.keys place) }
{
    found.insert(place)?;
    Ok(())
}

/// The places in a set, the oldest first.
fn listed(alloc: Global, mut found: BTreeSet<usize>) -> Result<Vec<usize>, AllocError>
    ensures { IfOk result (λ places. places.items ≡ found.keys) }
{
    let mut places = Vec::new(alloc);
    'each: while let Some(place) = found.pop_first() {
        places.push(place)?;
    }
    Ok(places)
}

/// The oldest container that is gone, of those that variables name.
pub fn first_missed(
    alloc: Global,
    context: &Context,
    uses: &[u32],
) -> Result<Option<u32>, AllocError>
    ensures { IfOk result (λ missed. missed ≡ d.first_missed uses.now context.now.spots) }
{
    let places = places(alloc, context, uses)?;
    Ok(missed_at(context, places.as_slice()))
}

/// The variable of the first container at these places that is gone.
fn missed_at(context: &Context, places: &[usize]) -> Option<u32>
    requires { Ascending places.now }
    ensures { result ≡ oldest_gone (picked places.now context.now.spots) }
{
    'each: for place in places {
        if let Some(variable) = gone_at(context, *place) {
            return Some(variable);
        }
    }
    None
}

/// The variable of the entry at a place, where it is a container that is gone.
fn gone_at(context: &Context, place: usize) -> Option<u32>
    ensures { result ≡ gone_one_of (spot_in context.now.spots place) }
{
    match context.get(place) {
        Some(entry) => if_gone(entry),
        None => None,
    }
}

fn if_gone(entry: Entry) -> Option<u32>
    ensures { result ≡ gone_one_of (Some (spot_of entry)) }
{
    if is_gone(entry) {
        Some(entry.var)
    } else {
        None
    }
}

/// Whether it is a container that is gone.
fn is_gone(entry: Entry) -> bool
    ensures { result ≡ (d.is_container (spot_of entry).rep && d.is_gone (spot_of entry).hold) }
{
    !matches!(entry.rep, Rep::Word | Rep::Flag) && matches!(entry.hold, Hold::Gone)
}
