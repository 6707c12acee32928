//! Representations of arguments, and what results are in.

ghost use Rattle.std.specs.Prelude.{◌≡◌, ◌<◌, ◌^◌, ◌&&◌, length, nat_eq, IfOk, option_to_list};
ghost use Rattle.fit_state.specs.Infos.{infos_of};
ghost use Rattle.fit_steps.specs.Parts as parts;
ghost use Rattle.fits.specs.Follow as f;
ghost use Rattle.fits.specs.Places as p;
ghost use Rattle.ownership.specs.Entries.{shapes_of};
ghost use Rattle.rule_check.specs.Context as d;
ghost use Rattle.rule_check.specs.Rows.{first_kinds, rule_of};
ghost use Rattle.rule_check.specs.Steps as steps;
ghost use Rattle.rule_check.specs.Table as table;

use fit_state::Info;
use nres_core::{Kind, Row};
use ownership::{Context, Shape, var_entry};
use sqlite_items::Items;
use std::alloc::{AllocError, Global};
use target_code::Rep;

/// The representations of arguments.
pub(crate) fn info_reps(alloc: Global, infos: &[Info]) -> Result<Items<Rep>, AllocError>
    ensures { IfOk result (λ reps. reps ≡ p.info_reps (infos_of infos.now)) }
{
    let mut reps = Items::new(alloc);
    'each: for info in infos {
        reps.push(info.shape.rep)?;
    }
    Ok(reps)
}

/// The bound of a representation.
fn bound_in(rep: Rep) -> Option<u32>
    ensures { result ≡ d.bound_in rep }
{
    match rep {
        Rep::Bits(bound) | Rep::Amap(bound) => Some(bound),
        _ => None,
    }
}

/// The first bound of representations.
fn first_bound(reps: &[Rep]) -> Option<u32>
    ensures { result ≡ table.bound_of reps.now }
{
    'each: for rep in reps {
        if let Some(bound) = bound_in(*rep) {
            return Some(bound);
        }
    }
    None
}

/// The bound of an operation, if it has one: that of what it makes, or the first one of its arguments.
pub(crate) fn own_bound(made: Option<Rep>, reps: &[Rep]) -> Option<u32>
    ensures own { option_to_list result ≡ f.bound_words made reps.now }
    ensures within { steps.op_bound made reps.now < 2 ^ 32 }
{
    let first = match made {
        Some(rep) => bound_in(rep),
        None => None,
    };
    match first {
        Some(bound) => Some(bound),
        None => first_bound(reps),
    }
}

/// How many of these kinds there are, up to a count.
fn kind_count(outs: u8, kinds: &[Kind]) -> usize
    ensures { result ≡ length (first_kinds outs kinds.now) }
{
    let count = outs as usize;
    count.min(kinds.len())
}

/// Whether new variables come in order from here on.
fn rises(next: u64, outs: &[u32]) -> bool
    ensures { result ≡ f.rises next outs.now }
{
    let mut bound = next;
    'each: for out in outs {
        if u64::from(*out) < bound {
            return false;
        }
        bound = u64::from(*out) + 1;
    }
    true
}

/// Whether new variables come in order from here on, as many as a row has results.
pub(crate) fn in_row(next: u64, outs: &[u32], row: &Row) -> bool
    ensures { result ≡ (nat_eq (length outs.now) (length (rule_of row.now).gives) && f.rises next outs.now) }
{
    outs.len() == kind_count(row.outs, &row.results) && rises(next, outs)
}

/// What variables are in.
pub(crate) fn out_shapes(
    alloc: Global,
    context: &Context,
    outs: &[u32],
) -> Result<Items<Shape>, AllocError>
    ensures { IfOk result (λ shapes. shapes_of shapes ≡ parts.out_shapes context.now.spots outs.now) }
{
    let mut shapes = Items::new(alloc);
    'each: for out in outs {
        shapes.push(var_entry(context, *out).shape())?;
    }
    Ok(shapes)
}
