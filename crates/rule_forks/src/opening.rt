//! What a fork is refused for, and what its branches begin with.

ghost use Rattle.std.specs.Prelude.{◌≡◌, ◌∷◌, [], Bool, Option as OptionOf, false, length, Some, None, Err, IfOk, codes};
ghost use Rattle.nres_core.specs.FlatTree.{flats_of};
ghost use Rattle.nres_core.specs.declared.refusal.Refusal.{Refusal as RefusalOf};
ghost use Rattle.ownership.specs.Entries as e;
ghost use Rattle.range_split.specs.Places.{Ascending, Places};
ghost use Rattle.rule_check.specs.Context as d;
ghost use Rattle.rule_check.specs.Steps.{Book, par_sure, refused, split_sure};
ghost use Rattle.rule_forks.specs.Forks as f;
ghost use Rattle.rule_forks.specs.Forks.{Begins, Forks, OpenedIs, fork_list, par_left, par_right, part_spots, split_left, split_right};
ghost use Rattle.rule_forks.specs.Parts.{part_of};

use crate::fork::{Branch, BranchPlaces, Fork};
use crate::parts::{Uses, uses_beside, uses_of, uses_with};
use nres_core::{FlatBlock, Place, Refusal};
use ownership::{Context, Shape, var_entry};
use range_split::{open_branch, open_part, par_fault, places, split_fault};
use rule_steps::refuse;
use sqlite_items::Items;
use std::alloc::{AllocError, Global};
use target_code::Name;

/// What a branch may use: the variables that it uses, those that the other one uses, and its slice.
#[derive(Clone, Copy)]
struct Part<'a> {
    us: &'a [u32],
    others: &'a [u32],
    slice: Option<u32>,
}

/// `par`: its branches, unless it is refused.
pub fn open_par(
    alloc: Global,
    names: &[Name],
    context: &Context,
    place: Place,
    left: &FlatBlock,
    right: &FlatBlock,
) -> Result<Result<Fork, Refusal>, AllocError>
    ensures { IfOk result (λ opened. (book : Book) → book.names ≡ names.now → let us = f.uses_of (flats_of left.now) in let vs = f.uses_of (flats_of right.now) in
        OpenedIs (par_sure book context.now.spots us vs (refused place (codes "par") [])) context.now.spots None (par_left us vs) (par_right us vs) opened) }
{
    let uses = uses_of(alloc, left, right)?;
    match par_fault(alloc, context, uses.left.as_slice(), uses.right.as_slice())? {
        Some(fault) => {
            let refusal = refuse(alloc, names, place, b"par", &[], fault)?;
            Ok(Err(refusal))
        }
        None => {
            let fork = open_whole(alloc, context, &uses)?;
            Ok(Ok(fork))
        }
    }
}

/// The branches of `par`, whose blocks use these variables.
fn open_whole(alloc: Global, context: &Context, uses: &Uses) -> Result<Fork, AllocError>
    ensures forks { IfOk result (λ fork. Forks context.now.spots (par_left uses.now.left uses.now.right) (par_right uses.now.left uses.now.right) fork) }
    ensures list { IfOk result (λ fork. fork_list fork ≡ None) }
{
    let left = Part {
        us: uses.left.as_slice(),
        others: uses.right.as_slice(),
        slice: None,
    };
    let right = Part {
        us: uses.right.as_slice(),
        others: uses.left.as_slice(),
        slice: None,
    };
    open_fork(alloc, context, left, right, None)
}

/// Where `split` stands, the list that it divides, and the variables of the two parts.
#[derive(Clone, Copy)]
pub struct Splitting {
    /// The place.
    pub place: Place,
    /// The list.
    pub list: u32,
    /// The variable of the left part.
    pub left_slice: u32,
    /// The variable of the right part.
    pub right_slice: u32,
}

/// `split`: its branches, unless it is refused, which changes nothing. Its list is gone.
pub fn open_split(
    alloc: Global,
    names: &[Name],
    context: &mut Context,
    splitting: &Splitting,
    left: &FlatBlock,
    right: &FlatBlock,
) -> Result<Result<Fork, Refusal>, AllocError>
    ensures opened { IfOk result (λ opened. (book : Book) → book.names ≡ names.now → let list = splitting.now.list in let us = f.uses_beside list (flats_of left.now) in let vs = f.uses_beside list (flats_of right.now) in
        OpenedIs (split_sure book context.old.spots splitting.now.place list us vs) context.new.spots (Some (d.shape_of (d.spot_at context.old.spots list)))
        (split_left list us vs splitting.now.left_slice) (split_right list us vs splitting.now.right_slice) opened) }
    ensures same { IfOk result (λ opened. (r : RefusalOf) → opened ≡ Err r → context.new ≡ context.old) }
    ensures saved { context.new.saved ≡ context.old.saved }
{
    let others = uses_beside(alloc, splitting.list, left, right)?;
    divide(alloc, names, context, splitting, &others)
}

/// The same by the variables that the blocks use beside the list.
fn divide(
    alloc: Global,
    names: &[Name],
    context: &mut Context,
    splitting: &Splitting,
    others: &Uses,
) -> Result<Result<Fork, Refusal>, AllocError>
    requires left { d.is_among splitting.now.list others.now.left ≡ false }
    requires right { d.is_among splitting.now.list others.now.right ≡ false }
    ensures opened { IfOk result (λ opened. (book : Book) → book.names ≡ names.now → let list = splitting.now.list in let us = others.now.left in let vs = others.now.right in
        OpenedIs (split_sure book context.old.spots splitting.now.place list us vs) context.new.spots (Some (d.shape_of (d.spot_at context.old.spots list)))
        (split_left list us vs splitting.now.left_slice) (split_right list us vs splitting.now.right_slice) opened) }
    ensures same { IfOk result (λ opened. (r : RefusalOf) → opened ≡ Err r → context.new ≡ context.old) }
    ensures saved { context.new.saved ≡ context.old.saved }
{
    let entry = var_entry(context, splitting.list);
    match split_fault(
        alloc,
        context,
        splitting.list,
        others.left.as_slice(),
        others.right.as_slice(),
    )? {
        Some(fault) => {
            let refusal = refuse(alloc, names, splitting.place, b"split", &[entry], fault)?;
            Ok(Err(refusal))
        }
        None => {
            context.go(splitting.list)?;
            let fork = open_parts(alloc, context, splitting, others, entry.shape())?;
            Ok(Ok(fork))
        }
    }
}

/// The branches of `split`, whose list is gone.
fn open_parts(
    alloc: Global,
    context: &Context,
    splitting: &Splitting,
    others: &Uses,
    list: Shape,
) -> Result<Fork, AllocError>
    ensures forks { IfOk result (λ fork. Forks context.now.spots (split_left splitting.now.list others.now.left others.now.right splitting.now.left_slice) (split_right splitting.now.list others.now.left others.now.right splitting.now.right_slice) fork) }
    ensures list { IfOk result (λ fork. fork_list fork ≡ Some (e.shape_of list)) }
{
    let uses = uses_with(alloc, splitting.list, others)?;
    let left = Part {
        us: uses.left.as_slice(),
        others: others.right.as_slice(),
        slice: Some(splitting.left_slice),
    };
    let right = Part {
        us: uses.right.as_slice(),
        others: others.left.as_slice(),
        slice: Some(splitting.right_slice),
    };
    open_fork(alloc, context, left, right, Some(list))
}

fn open_fork(
    alloc: Global,
    context: &Context,
    left: Part,
    right: Part,
    list: Option<Shape>,
) -> Result<Fork, AllocError>
    ensures forks { IfOk result (λ fork. Forks context.now.spots (part_of left.entry) (part_of right.entry) fork) }
    ensures list { IfOk result (λ fork. fork.list ≡ list) }
{
    let left = open_one(alloc, context, left)?;
    match open_one(alloc, context, right) {
        Ok(right) => Ok(Fork { list, left, right }),
        Err(error) => {
            drop(left);
            Err(error)
        }
    }
}

fn open_one(alloc: Global, context: &Context, part: Part) -> Result<Branch, AllocError>
    ensures { IfOk result (λ branch. Begins context.now.spots (part_of part.entry) branch) }
{
    let places = places(alloc, context, part.us)?;
    match begin(alloc, context, places.as_slice(), part) {
        Ok(context) => Ok(Branch {
            count: context.len(),
            places: BranchPlaces::new(places),
            context,
            slice: part.slice,
            results: Items::new(alloc),
        }),
        Err(error) => {
            drop(places);
            Err(error)
        }
    }
}

/// The entries of a branch that uses those at these places.
fn begin(
    alloc: Global,
    context: &Context,
    places: &[usize],
    part: Part,
) -> Result<Context, AllocError>
    requires { Ascending places.now }
    ensures { IfOk result (λ branch. Places (part_of part.entry).us places.now context.now.spots → branch.spots ≡ part_spots context.now.spots (part_of part.entry)) }
{
    match part.slice {
        Some(slice) => open_part(alloc, context, places, part.others, slice),
        None => open_branch(alloc, context, places, part.others),
    }
}
