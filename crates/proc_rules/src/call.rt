//! Calls.

ghost use Rattle.std.specs.Prelude.{◌≡◌, ◌++◌, IfOk, OnOk};
ghost use Rattle.ownership.specs.Entries.{shape_of, shapes_of, spot_of, spots_of};
ghost use Rattle.ownership.specs.Faults.{after_taken};
ghost use Rattle.proc_rules.specs.Calls.{call_fault, hand_one, known_fault, list_one, lists_left, shape_one, sig_seen, taken_of};
ghost use Rattle.rule_check.specs.Context as d;
ghost use Rattle.rule_check.specs.Steps as steps;

use crate::reps::{is_container, is_slice, stands_for};
use crate::sig::Sig;
use ownership::{Context, Entry, Fault, Shape, first_gone, first_kept, first_twice, go_all};
use sqlite_items::Items;
use std::alloc::{AllocError, Global};
use target_code::{InParam, Rep};

/// A call with arguments that have these entries: containers that its parameters do not keep are gone, unless it is refused, which
/// changes nothing. It is refused in this order: a container that is gone; representations that are not the parameters', or no such
/// procedure; a container that stands twice; one that must stay and is taken.
pub fn take_call(
    alloc: Global,
    context: &mut Context,
    sig: Option<Sig>,
    entries: &[Entry],
) -> Result<Option<Fault>, AllocError>
    ensures fault { IfOk result (λ fault. fault ≡ call_fault (spots_of entries.now) (sig_seen sig.entry)) }
    ensures taken { IfOk result (λ fault. context.new ≡ after_taken fault (taken_of (spots_of entries.now) (sig_seen sig.entry)) context.old) }
    ensures saved { context.new.saved ≡ context.old.saved }
{
    match sig {
        Some(sig) => take_known(alloc, context, sig.params, entries),
        None => match first_gone(entries) {
            Some(variable) => Ok(Some(Fault::Gone(variable))),
            None => Ok(Some(Fault::Missing)),
        },
    }
}

fn take_known(
    alloc: Global,
    context: &mut Context,
    params: &[InParam],
    entries: &[Entry],
) -> Result<Option<Fault>, AllocError>
    ensures fault { IfOk result (λ fault. fault ≡ known_fault (spots_of entries.now) params.now) }
    ensures taken { IfOk result (λ fault. context.new ≡ after_taken fault (d.vars_of (steps.handed params.now (spots_of entries.now))) context.old) }
    ensures saved { context.new.saved ≡ context.old.saved }
{
    let twice = first_twice(alloc, entries)?;
    let taken = handed(alloc, params, entries)?;
    match known_fault(entries, taken.as_slice(), params, twice) {
        Some(fault) => Ok(Some(fault)),
        None => {
            go_all(context, taken.as_slice())?;
            Ok(None)
        }
    }
}

fn known_fault(
    entries: &[Entry],
    taken: &[Entry],
    params: &[InParam],
    twice: Option<u32>,
) -> Option<Fault>
    requires twice { twice ≡ d.first_twice (spots_of entries.now) }
    requires taken { spots_of taken.now ≡ steps.handed params.now (spots_of entries.now) }
    ensures { result ≡ known_fault (spots_of entries.now) params.now }
{
    if let Some(variable) = first_gone(entries) {
        return Some(Fault::Gone(variable));
    }
    if !stand_for(entries, params) {
        return Some(Fault::Missing);
    }
    if let Some(variable) = twice {
        return Some(Fault::Twice(variable));
    }
    match first_kept(taken) {
        Some(variable) => Some(Fault::Held(variable)),
        None => None,
    }
}

/// Whether arguments with these entries may be passed for these parameters.
fn stand_for(entries: &[Entry], params: &[InParam]) -> bool
    ensures { result ≡ steps.stand_for (d.reps_of (spots_of entries.now)) params.now }
{
    let mut left = params;
    'each: for entry in entries {
        match left {
            [param, rest @ ..] => {
                if !stands_for(entry.rep, param.rep) {
                    return false;
                }
                left = rest;
            }
            [] => return false,
        }
    }
    left.is_empty()
}

/// The entries of the containers that a call takes.
fn handed(alloc: Global, params: &[InParam], entries: &[Entry]) -> Result<Items<Entry>, AllocError>
    ensures { IfOk result (λ taken. spots_of taken ≡ steps.handed params.now (spots_of entries.now)) }
{
    let mut taken = Items::new(alloc);
    let count = params.len().min(entries.len());
    'each: for index in 0..count {
        hand(&mut taken, &params[index], entries[index])?;
    }
    Ok(taken)
}

/// One more entry, where its parameter takes a container.
fn hand(taken: &mut Items<Entry>, param: &InParam, entry: Entry) -> Result<(), AllocError>
    ensures { OnOk result (spots_of taken.new ≡ spots_of taken.old ++ hand_one param.now (spot_of entry)) }
{
    if is_container(param.rep) && !param.kept {
        taken.push(entry)
    } else {
        Ok(())
    }
}

/// What the slices are in that a call takes, in order.
pub fn lists(
    alloc: Global,
    params: &[InParam],
    entries: &[Entry],
) -> Result<Items<Shape>, AllocError>
    ensures { IfOk result (λ lists. shapes_of lists ≡ steps.lists params.now (spots_of entries.now)) }
{
    let mut lists = Items::new(alloc);
    let count = params.len().min(entries.len());
    'each: for index in 0..count {
        list(&mut lists, &params[index], entries[index])?;
    }
    Ok(lists)
}

/// One more list, where its parameter takes a slice.
fn list(lists: &mut Items<Shape>, param: &InParam, entry: Entry) -> Result<(), AllocError>
    ensures { OnOk result (shapes_of lists.new ≡ shapes_of lists.old ++ list_one param.now (spot_of entry)) }
{
    if is_slice(param.rep) && !param.kept {
        lists.push(entry.shape())
    } else {
        Ok(())
    }
}

/// What the results of a call are in: its slices are the lists that it took, in order.
pub fn call_shapes(alloc: Global, outs: &[Rep], lists: &[Shape]) -> Result<Items<Shape>, AllocError>
    ensures { IfOk result (λ shapes. shapes_of shapes ≡ steps.call_shapes outs.now (shapes_of lists.now)) }
{
    let mut shapes = Items::new(alloc);
    let mut left = lists;
    'each: for rep in outs {
        shapes.push(shape_for(*rep, left))?;
        left = lists_after(*rep, left);
    }
    Ok(shapes)
}

/// What a result is in: a slice is the first list that is left.
fn shape_for(rep: Rep, lists: &[Shape]) -> Shape
    ensures { shape_of result ≡ shape_one rep (shapes_of lists.now) }
{
    if is_slice(rep) {
        first_list(lists)
    } else {
        Shape { rep, tag: 0 }
    }
}

fn lists_after(rep: Rep, lists: &[Shape]) -> &[Shape]
    ensures { shapes_of result.now ≡ lists_left rep (shapes_of lists.now) }
{
    if is_slice(rep) {
        other_lists(lists)
    } else {
        lists
    }
}

fn first_list(lists: &[Shape]) -> Shape
    ensures { shape_of result ≡ steps.next_list (shapes_of lists.now) }
{
    match lists {
        [first, ..] => *first,
        [] => Shape {
            rep: Rep::Array,
            tag: 0,
        },
    }
}

fn other_lists(lists: &[Shape]) -> &[Shape]
    ensures { shapes_of result.now ≡ steps.other_lists (shapes_of lists.now) }
{
    match lists {
        [_, rest @ ..] => rest,
        [] => lists,
    }
}
