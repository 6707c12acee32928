//! The oldest slice that goes on one of two sides alone.

ghost use Rattle.std.specs.Prelude.{◌≡◌, IfOk};
ghost use Rattle.context_laws.specs.Meeting as meeting;
ghost use Rattle.context_laws.specs.Stacks.{falls_at, spot_in};
ghost use Rattle.ownership.specs.Entries.{spot_of};
ghost use Rattle.rule_check.specs.Context.{first_unmet};

use crate::places::Places;
use ownership::{Context, Entry};
use std::alloc::{AllocError, Global};
use target_code::Rep;

/// The variable of the oldest slice that goes on one side alone, where these places go on the sides.
pub fn unmet(
    alloc: Global,
    context: &Context,
    left: &[usize],
    right: &[usize],
) -> Result<Option<u32>, AllocError>
    ensures { IfOk result (λ found. found ≡ first_unmet (falls_at left.now context.now.spots) (falls_at right.now context.now.spots)) }
{
    let left_places = Places::new(alloc, left)?;
    let right_places = Places::new(alloc, right)?;
    let here = first_one(context, left, &right_places);
    let there = first_one(context, right, &left_places);
    Ok(var_at(context, earlier(here, there)))
}

/// The first of these places at which a slice stands that does not go on the other side.
fn first_one(context: &Context, indices: &[usize], others: &Places) -> Option<usize>
    ensures { result ≡ meeting.first_one indices.now others.now context.now.spots }
{
    let mut first = None;
    'each: for index in indices {
        first = earlier(first, one_sided(context, *index, others));
    }
    first
}

fn one_sided(context: &Context, index: usize, others: &Places) -> Option<usize>
    ensures { result ≡ meeting.one_sided others.now context.now.spots index }
{
    if !others.contains(index) && is_free_slice_at(context, index) {
        Some(index)
    } else {
        None
    }
}

fn is_free_slice_at(context: &Context, index: usize) -> bool
    ensures { result ≡ meeting.free_slice_at (spot_in context.now.spots index) }
{
    match context.get(index) {
        Some(entry) => is_free_slice(&entry),
        None => false,
    }
}

fn is_free_slice(entry: &Entry) -> bool
    ensures { result ≡ meeting.free_slice (spot_of entry.now) }
{
    matches!(entry.rep, Rep::Slice) && entry.is_free()
}

fn earlier(left: Option<usize>, right: Option<usize>) -> Option<usize>
    ensures { result ≡ meeting.earlier left right }
{
    match (left, right) {
        (None, right) => right,
        (Some(left), None) => Some(left),
        (Some(left), Some(right)) => Some(if left < right { left } else { right }),
    }
}

fn var_at(context: &Context, place: Option<usize>) -> Option<u32>
    ensures { result ≡ meeting.var_at context.now.spots place }
{
    match place {
        Some(index) => var_in(context, index),
        None => None,
    }
}

fn var_in(context: &Context, index: usize) -> Option<u32>
    ensures { result ≡ meeting.var_in (spot_in context.now.spots index) }
{
    match context.get(index) {
        Some(entry) => Some(entry.var),
        None => None,
    }
}
