//! A branch's own entries, and what it leaves of them.

ghost use Rattle.std.specs.Prelude.{◌≡◌, ◌++◌, ◌∷◌, [], ℕ, List, nat_eq, IfOk, MatchOption, OnOk, option_map};
ghost use Rattle.indexmap.specs.IndexSet.{contains};
ghost use Rattle.context_laws.specs.Steps.{with_spots};
ghost use Rattle.ownership.specs.Entries.{spot_of};
ghost use Rattle.range_split.specs.Places.{Ascending, Places, Puts, added};
ghost use Rattle.rule_check.specs.Context as d;
ghost use Rattle.rule_check.specs.Steps.{branch_spots, slice_spot};

use indexmap::IndexSet;
use ownership::{Context, Entry, Hold};
use std::alloc::{AllocError, Global};
use target_code::Rep;

/// The entries that a branch begins with, in order of creation: those of the variables that it uses, whose places these are. An owned
/// container that the other branch uses too is kept.
pub fn open_branch(
    alloc: Global,
    context: &Context,
    places: &[usize],
    others: &[u32],
) -> Result<Context, AllocError>
    requires { Ascending places.now }
    ensures spots { IfOk result (λ branch. (us : List ℕ) → Places us places.now context.now.spots → branch.spots ≡ branch_spots context.now.spots us others.now) }
    ensures saved { IfOk result (λ branch. branch.saved ≡ []) }
{
    let shared = set_of(alloc, others)?;
    let mut branch = Context::new(alloc);
    'each: for place in places {
        add_lent(&mut branch, context.get(*place), &shared)?;
    }
    Ok(branch)
}

/// One more entry of a branch, where there is one; it is kept if it is an owned container of one of these variables.
fn add_lent(
    branch: &mut Context,
    entry: Option<Entry>,
    shared: &IndexSet<u32>,
) -> Result<(), AllocError>
    ensures { OnOk result ((vs : List ℕ) → ((v : ℕ) → contains nat_eq shared.now v ≡ d.is_among v vs) → branch.new ≡ added vs (option_map spot_of entry) branch.old) }
{
    match entry {
        Some(entry) => branch.add(lent(entry, shared)),
        None => Ok(()),
    }
}

/// The same for a block of `split`, which has its slice besides, as its newest entry.
pub fn open_part(
    alloc: Global,
    context: &Context,
    places: &[usize],
    others: &[u32],
    slice: u32,
) -> Result<Context, AllocError>
    requires { Ascending places.now }
    ensures spots { IfOk result (λ branch. (us : List ℕ) → Places us places.now context.now.spots → branch.spots ≡ slice_spot slice ∷ branch_spots context.now.spots us others.now) }
    ensures saved { IfOk result (λ branch. branch.saved ≡ []) }
{
    let mut branch = open_branch(alloc, context, places, others)?;
    branch.add(Entry {
        var: slice,
        rep: Rep::Slice,
        hold: Hold::Owned,
        tag: slice,
    })?;
    Ok(branch)
}

/// The variables of a list as a set.
fn set_of(alloc: Global, variables: &[u32]) -> Result<IndexSet<u32>, AllocError>
    ensures { IfOk result (λ set. (v : ℕ) → contains nat_eq set v ≡ d.is_among v variables.now) }
{
    let mut set = IndexSet::new(alloc);
    'each: for variable in variables {
        set.insert(*variable)?;
    }
    Ok(set)
}

/// An entry, which is kept if it is an owned container of one of these variables.
fn lent(entry: Entry, shared: &IndexSet<u32>) -> Entry
    ensures { (vs : List ℕ) → ((v : ℕ) → contains nat_eq shared.now v ≡ d.is_among v vs) → spot_of result ≡ d.lends vs (spot_of entry) }
{
    if entry.is_free() && shared.contains(&entry.var) {
        entry.held_as(Hold::Kept)
    } else {
        entry
    }
}

/// Owned containers are gone that are gone in a branch, which began with so many entries and has these places. There is no memory for
/// another branch.
pub fn close_branch(
    context: &mut Context,
    places: &[usize],
    count: usize,
    branch: &Context,
) -> Result<(), AllocError>
    requires { Ascending places.now }
    ensures ok { OnOk result ((us : List ℕ) → Places us places.now context.old.spots → context.new ≡ with_spots context.old (d.put_back us context.old.spots (d.outer count branch.now.spots))) }
    ensures saved { context.new.saved ≡ context.old.saved }
{
    if places.len() != count {
        return Err(AllocError);
    }
    let mut left = places;
    'each: while let Some((before, place)) = split_last(left) {
        put(context, *place, branch.get(before.len()))?;
        left = before;
    }
    Ok(())
}

/// The places before the last, and the last.
fn split_last(places: &[usize]) -> Option<(&[usize], &usize)>
    ensures { MatchOption result (places.now ≡ []) (λ found. places.now ≡ found.0.now ++ found.1.now ∷ []) }
{
    match places {
        [] => None,
        [before @ .., last] => Some((before, last)),
    }
}

/// The entry at a place is gone where the branch's is.
fn put(context: &mut Context, place: usize, entry: Option<Entry>) -> Result<(), AllocError>
    ensures ok { OnOk result (Puts place (option_map spot_of entry) context.old context.new) }
    ensures saved { context.new.saved ≡ context.old.saved }
{
    match entry {
        Some(entry) if place < context.len() => {
            if matches!(entry.hold, Hold::Gone) {
                context.go_at(place)
            } else {
                Ok(())
            }
        }
        _ => Err(AllocError),
    }
}
