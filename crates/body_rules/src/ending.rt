//! What is refused at the end of a body.

ghost use Rattle.std.specs.Prelude.{◌≡◌, IfOk};
ghost use Rattle.nres_core.specs.FlatTree.{flats_of};
ghost use Rattle.ownership.specs.Entries.{spots_of};
ghost use Rattle.rule_check.specs.Check as check;
ghost use Rattle.rule_check.specs.Check.{refusal_in};
ghost use Rattle.rule_check.specs.Context.{Ctx};
ghost use Rattle.rule_check.specs.Steps.{Book};
ghost use Rattle.body_rules.specs.Bodies.{body_ends, body_fault, left_fault};

use crate::owing::{astray, owed};
use branch_merge::first_unlike;
use nres_core::{FlatBlock, Refusal};
use ownership::{Context, Entry, Fault, end_block, looked_up, take_results};
use rule_steps::refuse;
use std::alloc::{AllocError, Global};
use target_code::{InParam, Name, Rep};

/// What a specification or a procedure takes, and what its results are to be in.
#[derive(Clone, Copy)]
pub struct Header<'a> {
    /// The parameters.
    pub params: &'a [InParam],
    /// The representations of the results.
    pub shown: &'a [Rep],
}

/// The end of a body, whose parameters are the variables from this one on. A refusal is given in this order: a result that is gone, stands
/// twice, or is kept; a slice that does not come back; a slice that a block made and that is left; another representation than is declared.
pub fn end_body(
    alloc: Global,
    names: &[Name],
    context: &mut Context,
    first: u32,
    header: &Header,
    block: &FlatBlock,
) -> Result<Option<Refusal>, AllocError>
    ensures ended { IfOk result (λ refused. (book : Book) (x : Ctx) → book.names ≡ names.now → x.spots ≡ context.old.spots → refusal_in (body_ends book first header.now.params.now header.now.shown.now x (flats_of block.now).ending) ≡ refused) }
    ensures saved { context.new.saved ≡ context.old.saved }
{
    let results = looked_up(alloc, context, block.results.as_slice())?;
    match end_fault(alloc, context, first, header, results.as_slice())? {
        None => Ok(None),
        Some(fault) => {
            let refusal = refuse(
                alloc,
                names,
                block.place,
                b"return",
                results.as_slice(),
                fault,
            )?;
            Ok(Some(refusal))
        }
    }
}

/// Why the end of a body is refused.
fn end_fault(
    alloc: Global,
    context: &mut Context,
    first: u32,
    header: &Header,
    results: &[Entry],
) -> Result<Option<Fault>, AllocError>
    ensures fault { IfOk result (λ fault. fault ≡ body_fault (check.owed first header.now.params.now) header.now.shown.now (spots_of results.now) context.old.spots) }
    ensures saved { context.new.saved ≡ context.old.saved }
{
    match take_results(alloc, context, results)? {
        Some(fault) => Ok(Some(fault)),
        None => {
            let slices = owed(alloc, first, header.params)?;
            left_fault(context, slices.as_slice(), header.shown, results)
        }
    }
}

/// Why it is refused once the results moved out.
fn left_fault(
    context: &Context,
    slices: &[u32],
    shown: &[Rep],
    results: &[Entry],
) -> Result<Option<Fault>, AllocError>
    ensures { IfOk result (λ fault. fault ≡ left_fault slices.now shown.now (spots_of results.now) context.now.spots) }
{
    if let Some(slice) = astray(slices, shown, results) {
        return Ok(Some(Fault::Tag(slice)));
    }
    if let Some(slice) = end_block(context, 0) {
        return Ok(Some(Fault::Tag(slice)));
    }
    match first_unlike(shown, results)? {
        Some(number) => Ok(Some(Fault::Result(number))),
        None => Ok(None),
    }
}
