//! Types of whole specifications.

ghost use Rattle.std.specs.Prelude.{◌≡◌, ◌≢◌, ◌&&◌, [], Some, cond, count_by, map, not, IfOk, IfErr, IsErr, IsSome, OnOk};
ghost use Rattle.nres_core.specs.declared.tree.Typing.{Typing};
ghost use Rattle.nres_core.specs.Mirror.{blk_of, named_params};
ghost use Rattle.nres_rules.specs.Types as kinds;
ghost use Rattle.nres_types.specs.Findings.{told_of, wrongs, joined, noted, blk_told};
ghost use Rattle.nres_types.specs.Wholes.{typed_told, IsTold, IsTypedBy};

use crate::blocks::block;
use crate::bodies::fit_results;
use crate::findings::Findings;
use crate::patterns::{again, twice_params};
use crate::profiles::{Profiles, shown_types};
use crate::refusal::TypeRefusal;
use crate::scope::Scope;
use crate::words::rep_fits;
use indexmap::IndexSet;
use nres_core::{Block, Fun, Param, Shown, Spec, Typing};
use sqlite_items::Items;
use std::alloc::{AllocError, Global};
use target_code::Rep;

fn fit_params(findings: &mut Findings<'_>, params: &[Param])
    ensures { told_of findings.new ≡ noted (told_of findings.old) (kinds.params_fit params.now) }
{
    for param in params {
        findings.note(rep_fits(param.rep_place, param.ty, param.rep));
    }
}

fn fit_shown(findings: &mut Findings<'_>, shown: &[Shown])
    ensures { told_of findings.new ≡ noted (told_of findings.old) (kinds.shown_fit shown.now) }
{
    for one in shown {
        findings.note(rep_fits(one.rep_place, one.ty, one.rep));
    }
}

/// The parameters alone are in scope.
fn params_scope<'a>(alloc: Global, params: &'a [Param]) -> Result<Scope<'a>, AllocError>
    ensures { IfOk result (λ s. s ≡ kinds.with_types (named_params params.now) (kinds.some_types (kinds.param_types params.now)) []) }
{
    let mut scope = Scope::new(alloc);
    for param in params {
        scope.bind(param.name.bytes(), Some(param.ty))?;
    }
    Ok(scope)
}

/// Parameters, what is shown, and the block that gives it.
fn enter<'a>(
    alloc: Global,
    profiles: &Profiles<'a>,
    findings: &mut Findings<'a>,
    params: &'a [Param],
    shown: &'a [Shown],
    body: &'a Block,
) -> Result<(), AllocError>
    ensures { OnOk result (told_of findings.new ≡ joined (told_of findings.old) (blk_told (kinds.entered profiles.now params.now shown.now (blk_of body.now)))) }
{
    fit_params(findings, params);
    findings.note(twice_params(alloc, params)?);
    fit_shown(findings, shown);
    let mut scope = params_scope(alloc, params)?;
    let results = block(alloc, profiles, &mut scope, findings, body)?;
    let types = shown_types(alloc, shown)?;
    fit_results(findings, &results, types.as_slice());
    Ok(())
}

fn is_slice(rep: Rep) -> bool
    ensures { result ≡ kinds.is_slice rep }
{
    matches!(rep, Rep::Slice)
}

/// How many slices are given.
fn slices_given(shown: &[Shown]) -> usize
    ensures { result ≡ count_by (λ one. kinds.is_slice one.rep) shown.now }
{
    shown.iter().filter(|one| is_slice(one.rep)).count()
}

/// How many slices are taken that do not stay.
fn slices_taken(params: &[Param]) -> usize
    ensures { result ≡ count_by (λ one. kinds.is_slice one.rep && not one.kept) params.now }
{
    params
        .iter()
        .filter(|param| is_slice(param.rep) && !param.kept)
        .count()
}

/// The procedures, one after the other.
fn enter_funs<'a>(
    alloc: Global,
    profiles: &Profiles<'a>,
    findings: &mut Findings<'a>,
    funs: &'a [Fun],
) -> Result<(), AllocError>
    ensures { OnOk result (told_of findings.new ≡ joined (told_of findings.old) (typed_told (kinds.funs_type profiles.now [] funs.now))) }
{
    let mut seen = IndexSet::new(alloc);
    for fun in funs {
        let params = fun.params.as_slice();
        let shown = fun.shown.as_slice();
        findings.note(again(&mut seen, fun.place, fun.name.bytes())?);
        findings.count(fun.place, slices_taken(params), slices_given(shown));
        enter(alloc, profiles, findings, params, shown, &fun.body)?;
    }
    Ok(())
}

/// What is found of a specification.
fn walk<'a>(alloc: Global, spec: &'a Spec) -> Result<Findings<'a>, AllocError>
    ensures { IfOk result (λ found. told_of found ≡ typed_told (kinds.spec_type spec.now)) }
{
    let funs = spec.funs.as_slice();
    let profiles = Profiles::new(alloc, funs)?;
    let mut findings = Findings::new(alloc);
    enter(
        alloc,
        &profiles,
        &mut findings,
        spec.params.as_slice(),
        spec.shown.as_slice(),
        &spec.body,
    )?;
    enter_funs(alloc, &profiles, &mut findings, funs)?;
    Ok(findings)
}

/// Things that are all known.
fn all_known<T: Copy>(alloc: Global, found: &[Option<T>]) -> Result<Items<T>, TypeRefusal>
    ensures all { IfOk result (λ known. found.now ≡ map (λ one. Some one) known) }
    ensures memory { IfErr result (λ e. e ≡ TypeRefusal.Memory) }
{
    let mut known = Items::new(alloc);
    for one in found {
        let Some(one) = one else {
            return Err(TypeRefusal::Memory);
        };
        if known.push(*one).is_err() {
            return Err(TypeRefusal::Memory);
        }
    }
    Ok(known)
}

/// The typing that was found, or the least refusal.
fn conclude(alloc: Global, found: Findings<'_>) -> Result<Typing, TypeRefusal>
    ensures typed { IfOk result (λ u. IsTypedBy (told_of found.entry) u) }
    ensures refused { IfErr result (λ e. IsTold e (told_of found.entry).refusal) }
{
    if let Some(fault) = found.refusal {
        return Err(fault.into_refusal(alloc));
    }
    let binders = all_known(alloc, found.binders.as_slice())?;
    let words = all_known(alloc, found.words.as_slice())?;
    Ok(Typing { binders, words })
}

/// The typing of a specification: the types of all names that it binds and the operation of each word, in the order of the text.
/// Else the broken rule whose place comes first in the text, the inner expression's at one place.
///
/// # Errors
///
/// Each refusal but `Memory` comes exactly where its rule is the one that is broken first. `Memory` comes where there was no
/// memory, and for trees that no text has: an operation word that is none, a constructor without a representation, a name that
/// is too long, or a number of names that no `u32` holds.
pub fn type_of(alloc: Global, spec: &Spec) -> Result<Typing, TypeRefusal>
    ensures typed { IfOk result (λ u. kinds.HasTyping spec.now u) }
    ensures only { (u : Typing) → kinds.HasTyping spec.now u → result ≢ Err TypeRefusal.Memory → result ≡ Ok u }
    ensures refused { IfErr result (λ e. IsTold e (kinds.refusal_of spec.now)) }
    ensures least { IsSome (kinds.refusal_of spec.now) → IsErr result }
{
    match walk(alloc, spec) {
        Ok(found) => conclude(alloc, found),
        Err(_) => Err(TypeRefusal::Memory),
    }
}
