//! The results of both branches.

ghost use Rattle.std.specs.Prelude.{◌≡◌, ◌++◌, ◌∷◌, IfOk, option_map};
ghost use Rattle.ownership.specs.Entries as e;
ghost use Rattle.ownership.specs.Entries.{spots_of};
ghost use Rattle.rule_check.specs.Context as d;
ghost use Rattle.rule_check.specs.Steps.{other_shapes};
ghost use Rattle.rule_forks.specs.Forks.{fork_shapes};

use ownership::{Entry, Shape, shapes};
use sqlite_items::Items;
use std::alloc::{AllocError, Global};

/// What the results of a fork are in: those of the left branch before those of the right. Of `split` first the list, in place of the
/// slices with which its blocks end.
pub(crate) fn fork_results(
    alloc: Global,
    list: Option<Shape>,
    left: &[Entry],
    right: &[Entry],
) -> Result<Items<Shape>, AllocError>
    ensures { IfOk result (λ results. e.shapes_of results ≡ fork_shapes (option_map e.shape_of list) (d.shapes_of (spots_of left.now)) (d.shapes_of (spots_of right.now))) }
{
    match list {
        None => joined(alloc, left, right),
        Some(list) => {
            let mut results = Items::from_slice(alloc, &[list])?;
            results.append(joined(alloc, other_results(left), other_results(right))?)?;
            Ok(results)
        }
    }
}

fn joined(alloc: Global, left: &[Entry], right: &[Entry]) -> Result<Items<Shape>, AllocError>
    ensures { IfOk result (λ results. e.shapes_of results ≡ d.shapes_of (spots_of left.now) ++ d.shapes_of (spots_of right.now)) }
{
    let mut results = shapes(alloc, left)?;
    results.append(shapes(alloc, right)?)?;
    Ok(results)
}

/// All results but the first.
fn other_results(results: &[Entry]) -> &[Entry]
    ensures { d.shapes_of (spots_of result.now) ≡ other_shapes (d.shapes_of (spots_of results.now)) }
{
    match results {
        [_, rest @ ..] => rest,
        [] => results,
    }
}
