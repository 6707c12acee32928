//! The slices that a body owes.

ghost use Rattle.std.specs.Prelude.{◌≡◌, ◌&&◌, ◌∷◌, ◌++◌, nat_eq, List, Some, IfOk, MatchResult, OnOk};
ghost use Rattle.ownership.specs.Entries.{spot_of, spots_of};
ghost use Rattle.rule_check.specs.Check.{owed};
ghost use Rattle.rule_check.specs.Context as d;
ghost use Rattle.rule_check.specs.Context.{Shape};
ghost use Rattle.rule_check.specs.Steps.{slices_are};
ghost use Rattle.body_rules.specs.Bodies.{owed_one};
ghost use Rattle.target_code.specs.declared.tree.Rep.{Rep as RepOf};

use crate::beginning::next;
use ownership::Entry;
use sqlite_items::Items;
use std::alloc::{AllocError, Global};
use target_code::{InParam, Rep};

/// The slices that are to come back: those that a body takes over, of parameters that are the variables from this one on.
pub(crate) fn owed(alloc: Global, first: u32, params: &[InParam]) -> Result<Items<u32>, AllocError>
    ensures { IfOk result (λ slices. slices ≡ owed first params.now) }
{
    let mut slices = Items::new(alloc);
    let mut variable = first;
    'each: for param in params {
        owe(&mut slices, param, variable)?;
        variable = next(variable)?;
    }
    Ok(slices)
}

/// One more slice, where a parameter takes it over.
fn owe(slices: &mut Items<u32>, param: &InParam, variable: u32) -> Result<(), AllocError>
    ensures { OnOk result (slices.new ≡ slices.old ++ owed_one variable param.now) }
{
    if matches!(param.rep, Rep::Slice) && !param.kept {
        slices.push(variable)
    } else {
        Ok(())
    }
}

/// The first of these slices that does not come back, in order, where slices are declared.
pub(crate) fn astray(slices: &[u32], shown: &[Rep], results: &[Entry]) -> Option<u32>
    ensures { result ≡ slices_are slices.now shown.now (d.shapes_of (spots_of results.now)) }
{
    let mut left = slices;
    let count = shown.len().min(results.len());
    'each: for index in 0..count {
        match after_one(left, shown[index], &results[index]) {
            Ok(others) => left = others,
            Err(slice) => return Some(slice),
        }
    }
    None
}

/// The slices that are to come back after one result, or the one that does not come back with it.
fn after_one<'a>(slices: &'a [u32], shown: Rep, entry: &Entry) -> Result<&'a [u32], u32>
    ensures { MatchResult result (λ others. (ys : List RepOf) (zs : List Shape) → slices_are slices.now (shown ∷ ys) (d.shape_of (spot_of entry.now) ∷ zs) ≡ slices_are others.now ys zs)
        (λ slice. (ys : List RepOf) (zs : List Shape) → slices_are slices.now (shown ∷ ys) (d.shape_of (spot_of entry.now) ∷ zs) ≡ Some slice) }
{
    match slices {
        [] => Ok(slices),
        [slice, others @ ..] => {
            if !matches!(shown, Rep::Slice) {
                return Ok(slices);
            }
            if is_slice_of(entry, *slice) {
                Ok(others)
            } else {
                Err(*slice)
            }
        }
    }
}

fn is_slice_of(entry: &Entry, slice: u32) -> bool
    ensures { result ≡ (d.is_slice entry.now.rep && nat_eq entry.now.tag slice) }
{
    matches!(entry.rep, Rep::Slice) && entry.tag == slice
}
