//! Types of bodies without blocks, and how results fit.

ghost use Rattle.std.specs.Prelude.{◌≡◌, [], None, IfOk, OnOk};
ghost use Rattle.nres_core.specs.Mirror.{exp_of, all_exps};
ghost use Rattle.nres_core.specs.Tree as trees;
ghost use Rattle.nres_rules.specs.Types as kinds;
ghost use Rattle.nres_types.specs.Bodies.{IsBod, gives_of, nowhere, results_fit, turns_fit};
ghost use Rattle.nres_types.specs.Findings.{told_of, noted};

use crate::exprs::{expr, exprs, operand};
use crate::fault::Fault;
use crate::findings::{Findings, Head};
use crate::gives::Gives;
use crate::patterns::twice;
use crate::profiles::Profiles;
use crate::scope::Scope;
use crate::words::{taken_from, taker};
use nres_core::{Expr, Named, Place, Ty};
use std::alloc::{AllocError, Global};
use target_code::Name;

/// The results of a block: their places and types, and the place of `return`.
#[derive(Drop)]
pub(crate) struct Results {
    pub(crate) heads: Vec<Head>,
    pub(crate) place: Place,
}

/// The results of a block fit these types.
pub(crate) fn fit_results(findings: &mut Findings<'_>, results: &Results, types: &[Option<Ty>])
    ensures { told_of findings.new ≡ noted (told_of findings.old) (results_fit results.now.place results.now.heads.items types.now) }
{
    findings.count(results.place, types.len(), results.heads.len());
    findings.expect_known(results.heads.as_slice(), types);
}

/// The pattern of a loop and the results of its block fit the types of the values with which it begins.
pub(crate) fn fit_turns<'a>(
    alloc: Global,
    findings: &mut Findings<'a>,
    place: Place,
    vars: &'a [Named],
    types: &[Option<Ty>],
    results: &Results,
) -> Result<(), AllocError>
    ensures { OnOk result (told_of findings.new ≡ noted (told_of findings.old) (turns_fit place vars.now types.now results.now.place results.now.heads.items)) }
{
    findings.note(twice(alloc, vars)?);
    findings.count(place, types.len(), vars.len());
    fit_results(findings, results, types);
    Ok(())
}

/// The first result of a block is a list.
pub(crate) fn fit_list(findings: &mut Findings<'_>, results: &Results)
    ensures { told_of findings.new ≡ noted (told_of findings.old) (kinds.first_is_list results.now.heads.items) }
{
    if let [(place, found), ..] = results.heads.as_slice() {
        findings.expect(*place, Ty::List, *found);
    }
}

/// The type of one value.
pub(crate) fn value<'a, 'p>(
    alloc: Global,
    scope: &Scope<'_>,
    findings: &mut Findings<'a>,
    tree: &'a Expr,
) -> Result<Gives<'p>, AllocError>
    ensures { IfOk result (λ gives. IsBod (gives_of gives) (told_of findings.old) (told_of findings.new) (kinds.bod_type [] (trees.Value (exp_of tree.now)) scope.now)) }
{
    let found = expr(alloc, scope, findings, tree)?;
    Ok(Gives::Own(vec![in alloc; found]?))
}

/// The types of an element that is taken out, and of what is left.
pub(crate) fn take<'a, 'p>(
    alloc: Global,
    scope: &Scope<'_>,
    findings: &mut Findings<'a>,
    word: &Name,
    arg: &'a Expr,
) -> Result<Gives<'p>, AllocError>
    ensures { IfOk result (λ gives. IsBod (gives_of gives) (told_of findings.old) (told_of findings.new) (kinds.bod_type [] (trees.Take nowhere (word.now, None) (exp_of arg.now)) scope.now)) }
{
    let op = taker(word.bytes());
    let from = taken_from(op);
    findings.add_word(Some(op))?;
    operand(alloc, scope, findings, arg, from)?;
    Ok(Gives::Own(vec![in alloc; Some(Ty::Nat), Some(from)]?))
}

/// The type of any number between two.
pub(crate) fn any<'a, 'p>(
    alloc: Global,
    scope: &Scope<'_>,
    findings: &mut Findings<'a>,
    low: &'a Expr,
    high: &'a Expr,
) -> Result<Gives<'p>, AllocError>
    ensures { IfOk result (λ gives. IsBod (gives_of gives) (told_of findings.old) (told_of findings.new) (kinds.bod_type [] (trees.Any nowhere (exp_of low.now) (exp_of high.now)) scope.now)) }
{
    operand(alloc, scope, findings, low, Ty::Nat)?;
    operand(alloc, scope, findings, high, Ty::Nat)?;
    Ok(Gives::Own(vec![in alloc; Some(Ty::Nat)]?))
}

/// The types of a procedure's results.
pub(crate) fn call<'a, 'p>(
    alloc: Global,
    profiles: &'p Profiles<'a>,
    scope: &Scope<'_>,
    findings: &mut Findings<'a>,
    fun: &'a Named,
    args: &'a [Expr],
) -> Result<Gives<'p>, AllocError>
    ensures { IfOk result (λ gives. IsBod (gives_of gives) (told_of findings.old) (told_of findings.new) (kinds.bod_type profiles.now (trees.Call nowhere fun.now (all_exps args.now)) scope.now)) }
{
    let heads = exprs(alloc, scope, findings, args)?;
    let name = fun.name.bytes();
    match profiles.find(name) {
        Some(profile) => {
            findings.count(fun.place, profile.takes.len(), heads.len());
            findings.expect_all(heads.as_slice(), profile.takes.as_slice());
            Ok(Gives::Of(profile.gives.as_slice()))
        }
        None => {
            findings.note(Some(Fault::Unbound {
                place: fun.place,
                name,
            }));
            Ok(Gives::Unknown)
        }
    }
}
