//! What a row of the table asks of arguments, and what it gives.

ghost use Rattle.std.specs.Prelude.{◌≡◌, [], ◌∷◌, ◌++◌, IfOk, OnOk, Some, None};
ghost use Rattle.ownership.specs.Entries.{shape_of, shapes_of, spot_of, spots_of};
ghost use Rattle.ownership.specs.Faults.{args_fault};
ghost use Rattle.rule_check.specs.Context as d;
ghost use Rattle.rule_check.specs.Rows.{first_kinds, first_takes, rule_of};
ghost use Rattle.rule_check.specs.Steps as steps;
ghost use Rattle.rule_check.specs.Table as table;
ghost use Rattle.rule_steps.specs.Operations.{after_row, fact_fault, one_destroyed};

use facts::Facts;
use nres_core::{Arg, Fate, Kind, Row};
use ownership::{Context, Entry, Fault, Shape, bind, take_args};
use sqlite_items::{Items, at};
use std::alloc::{AllocError, Global};
use target_code::Rep;

/// The bound of a representation.
fn bound_in(rep: Rep) -> Option<u32>
    ensures { result ≡ d.bound_in rep }
{
    match rep {
        Rep::Bits(bound) | Rep::Amap(bound) => Some(bound),
        _ => None,
    }
}

/// The first bound of arguments.
fn first_bound(entries: &[Entry]) -> Option<u32>
    ensures { result ≡ table.bound_of (d.reps_of (spots_of entries.now)) }
{
    'each: for entry in entries {
        if let Some(bound) = bound_in(entry.rep) {
            return Some(bound);
        }
    }
    None
}

/// The bound of an operation: that of what it makes, or the first one of its arguments; 0 where there is none.
pub(crate) fn op_bound(made: Option<Rep>, entries: &[Entry]) -> u32
    ensures { result ≡ steps.op_bound made (d.reps_of (spots_of entries.now)) }
{
    let own = match made {
        Some(rep) => bound_in(rep),
        None => None,
    };
    match own {
        Some(bound) => bound,
        None => first_bound(entries).unwrap_or(0),
    }
}

/// What is refused where the number that a row wants below the bound is not known to be.
pub(crate) fn unknown(facts: &Facts, bound: u32, fact: Option<u8>, args: &[Arg]) -> Option<Fault>
    ensures { result ≡ fact_fault bound (steps.unknown facts.now bound fact args.now) }
{
    match fact {
        Some(index) => match at(args, index as usize) {
            Some(arg) => unknown_arg(facts, bound, *arg),
            None => None,
        },
        None => None,
    }
}

fn unknown_arg(facts: &Facts, bound: u32, arg: Arg) -> Option<Fault>
    ensures { result ≡ fact_fault bound (steps.unless_known facts.now bound (Some arg)) }
{
    if facts.knows(arg, bound as u64) {
        None
    } else {
        Some(Fault::Fact(arg, bound))
    }
}

/// The entries of the arguments that a row destroys, behind others. A row has at most three arguments.
fn destroy(
    destroyed: &mut Items<Entry>,
    count: u8,
    kinds: &[Kind],
    fates: &[Fate],
    entries: &[Entry],
) -> Result<(), AllocError>
    ensures { OnOk result (spots_of destroyed.new ≡ spots_of destroyed.old ++ steps.destroyed (first_takes count kinds.now fates.now) (spots_of entries.now)) }
{
    if count == 0 {
        return Ok(());
    }
    match (kinds, fates, entries) {
        ([_, kinds @ ..], [fate, fates @ ..], [entry, entries @ ..]) => {
            destroy_one(destroyed, *fate, *entry)?;
            destroy(destroyed, count - 1, kinds, fates, entries)
        }
        _ => Ok(()),
    }
}

fn destroy_one(destroyed: &mut Items<Entry>, fate: Fate, entry: Entry) -> Result<(), AllocError>
    ensures { OnOk result (spots_of destroyed.new ≡ spots_of destroyed.old ++ one_destroyed fate (spot_of entry)) }
{
    match fate {
        Fate::Kept => Ok(()),
        Fate::Destroyed => destroyed.push(entry),
    }
}

/// The tag of the first slice; 0 where there is none.
fn slice_tag(entries: &[Entry]) -> u32
    ensures { result ≡ steps.slice_tag (spots_of entries.now) }
{
    'each: for entry in entries {
        if matches!(entry.rep, Rep::Slice) {
            return entry.tag;
        }
    }
    0
}

/// The representation of a kind with a bound.
fn rep_of(kind: Kind, bound: u32) -> Rep
    ensures { result ≡ table.rep_of kind bound }
{
    match kind {
        Kind::Word => Rep::Word,
        Kind::Flag => Rep::Flag,
        Kind::Array => Rep::Array,
        Kind::Slice => Rep::Slice,
        Kind::Vec => Rep::Vec,
        Kind::Bits => Rep::Bits(bound),
        Kind::Hset => Rep::Hset,
        Kind::Amap => Rep::Amap(bound),
        Kind::Hmap => Rep::Hmap,
        Kind::Heap => Rep::Heap,
    }
}

/// A slice has the tag, and all else has 0.
fn tagged(tag: u32, rep: Rep) -> Shape
    ensures { shape_of result ≡ steps.tagged tag rep }
{
    let tag = if matches!(rep, Rep::Slice) { tag } else { 0 };
    Shape { rep, tag }
}

/// What the results of a row are in, behind others. A row has at most two results.
fn give(
    shapes: &mut Items<Shape>,
    count: u8,
    kinds: &[Kind],
    bound: u32,
    tag: u32,
) -> Result<(), AllocError>
    ensures { OnOk result (shapes_of shapes.new ≡ shapes_of shapes.old ++ steps.row_shapes bound tag (first_kinds count kinds.now)) }
{
    if count == 0 {
        return Ok(());
    }
    match kinds {
        [kind, kinds @ ..] => {
            give_one(shapes, tagged(tag, rep_of(*kind, bound)))?;
            give(shapes, count - 1, kinds, bound, tag)
        }
        [] => Ok(()),
    }
}

fn give_one(shapes: &mut Items<Shape>, shape: Shape) -> Result<(), AllocError>
    ensures { OnOk result (shapes_of shapes.new ≡ shapes_of shapes.old ++ shape_of shape ∷ []) }
{
    shapes.push(shape)
}

/// What the results of a row are in.
fn row_shapes(alloc: Global, row: &Row, bound: u32, tag: u32) -> Result<Items<Shape>, AllocError>
    ensures { IfOk result (λ shapes. shapes_of shapes ≡ steps.row_shapes bound tag (rule_of row.now).gives) }
{
    let mut shapes = Items::new(alloc);
    give(&mut shapes, row.outs, &row.results, bound, tag)?;
    Ok(shapes)
}

/// The entries of the arguments that a row destroys.
fn destroyed(alloc: Global, row: &Row, entries: &[Entry]) -> Result<Items<Entry>, AllocError>
    ensures { IfOk result (λ destroyed. spots_of destroyed ≡ steps.destroyed (rule_of row.now).takes (spots_of entries.now)) }
{
    let mut destroyed = Items::new(alloc);
    destroy(&mut destroyed, row.count, &row.args, &row.fates, entries)?;
    Ok(destroyed)
}

/// A row that fits, with the bound.
#[derive(Clone, Copy)]
pub(crate) struct Found {
    /// The row.
    pub row: Row,
    /// The bound.
    pub bound: u32,
    /// What is refused of a number.
    pub unknown: Option<Fault>,
}

/// What a row does with arguments that have these entries: those that it destroys are gone, and its results are bound, unless it is
/// refused, which changes nothing.
pub(crate) fn meet_row(
    alloc: Global,
    context: &mut Context,
    outs: &[u32],
    entries: &[Entry],
    found: &Found,
) -> Result<Option<Fault>, AllocError>
    ensures fault { IfOk result (λ fault. fault ≡ args_fault (spots_of entries.now) (steps.destroyed (rule_of found.now.row).takes (spots_of entries.now)) found.now.unknown) }
    ensures after { IfOk result (λ fault. context.new ≡ after_row fault found.now.bound outs.now (spots_of entries.now) (rule_of found.now.row) context.old) }
    ensures saved { context.new.saved ≡ context.old.saved }
{
    let destroyed = destroyed(alloc, &found.row, entries)?;
    match take_args(context, destroyed.as_slice(), entries, found.unknown)? {
        Some(fault) => Ok(Some(fault)),
        None => {
            let tag = slice_tag(destroyed.as_slice());
            let shapes = row_shapes(alloc, &found.row, found.bound, tag)?;
            bind(context, outs, shapes.as_slice())?;
            Ok(None)
        }
    }
}
