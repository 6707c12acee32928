//! Types of blocks, steps and bodies.

ghost use Rattle.std.specs.Prelude.{◌≡◌, ◌∷◌, ◌++◌, IfOk, OnOk};
ghost use Rattle.nres_core.specs.Mirror.{exp_of, all_exps, blk_of, bod_of, before};
ghost use Rattle.nres_core.specs.Tree as trees;
ghost use Rattle.nres_rules.specs.Types as kinds;
ghost use Rattle.nres_types.specs.Bodies.{IsBlk, IsBod, IsGiven, IsHalf, IsStep, gives_of, half_told, halves_types, nowhere, side_told};
ghost use Rattle.nres_types.specs.Findings.{told_of, blk_told};

use crate::bodies::{Results, any, call, fit_list, fit_results, fit_turns, take, value};
use crate::exprs::{exprs, operand};
use crate::findings::Findings;
use crate::gives::{Gives, add_types, types_of};
use crate::patterns::{name_wants, twice};
use crate::profiles::Profiles;
use crate::scope::{Scope, bind_all};
use nres_core::{Block, Body, Expr, Named, Place, Step, Ty};
use std::alloc::{AllocError, Global};

/// The results of a block, whose names are out of scope behind it.
#[cycle(blocks)]
pub(crate) fn block<'a>(
    alloc: Global,
    profiles: &Profiles<'a>,
    scope: &mut Scope<'a>,
    findings: &mut Findings<'a>,
    tree: &'a Block,
) -> Result<Results, AllocError>
    ensures typed { IfOk result (λ r. IsBlk r.heads.items r.place (told_of findings.old) (told_of findings.new) (kinds.blk_type profiles.now (blk_of tree.now) scope.old)) }
    ensures scope { OnOk result (scope.new ≡ scope.old) }
{
    let mark = scope.len();
    for step in tree.steps.as_slice() {
        one_step(alloc, profiles, scope, findings, step)?;
    }
    let heads = exprs(alloc, scope, findings, tree.results.as_slice())?;
    scope.leave(mark);
    Ok(Results {
        heads,
        place: tree.place,
    })
}

/// One step. The names that it binds stay in scope.
#[cycle(blocks)]
fn one_step<'a>(
    alloc: Global,
    profiles: &Profiles<'a>,
    scope: &mut Scope<'a>,
    findings: &mut Findings<'a>,
    tree: &'a Step,
) -> Result<(), AllocError>
    ensures { OnOk result (IsStep profiles.now (before tree.now) (told_of findings.old) (told_of findings.new) scope.old scope.new) }
{
    match tree {
        Step::Bind { names, place, body } => {
            bind(
                alloc,
                profiles,
                scope,
                findings,
                names.as_slice(),
                *place,
                body,
            )
        }
        Step::Assert { test, .. } => operand(alloc, scope, findings, test, Ty::Bool),
    }
}

/// A pattern is bound to the results of a body. The types of its names are known once the body is typed.
#[cycle(blocks)]
fn bind<'a>(
    alloc: Global,
    profiles: &Profiles<'a>,
    scope: &mut Scope<'a>,
    findings: &mut Findings<'a>,
    names: &'a [Named],
    place: Place,
    body: &'a Body,
) -> Result<(), AllocError>
    ensures { OnOk result (IsStep profiles.now (trees.Bind names.now place (bod_of body.now)) (told_of findings.old) (told_of findings.new) scope.old scope.new) }
{
    let at = findings.binders.len();
    findings.add_binders(names, &[])?;
    let gives = one_body(alloc, profiles, scope, findings, body)?;
    findings.note(twice(alloc, names)?);
    findings.note(gives.pattern_counts(place, names.len()));
    findings.set_binders(at, names, gives.types());
    bind_all(scope, names, gives.types())
}

/// The types of a body's results, where their number is known.
#[cycle(blocks)]
fn one_body<'a, 'p>(
    alloc: Global,
    profiles: &'p Profiles<'a>,
    scope: &mut Scope<'a>,
    findings: &mut Findings<'a>,
    tree: &'a Body,
) -> Result<Gives<'p>, AllocError>
    ensures typed { IfOk result (λ gives. IsBod (gives_of gives) (told_of findings.old) (told_of findings.new) (kinds.bod_type profiles.now (bod_of tree.now) scope.old)) }
    ensures scope { OnOk result (scope.new ≡ scope.old) }
{
    match tree {
        Body::Value(tree) => value(alloc, scope, findings, tree),
        Body::Take { word, arg, .. } => take(alloc, scope, findings, word, arg),
        Body::Any { low, high, .. } => any(alloc, scope, findings, low, high),
        Body::If { test, yes, no, .. } => {
            operand(alloc, scope, findings, test, Ty::Bool)?;
            let first = block(alloc, profiles, scope, findings, yes)?;
            other_side(alloc, profiles, scope, findings, first, no)
        }
        Body::While {
            vars,
            vars_place,
            starts,
            test,
            body,
            ..
        } => {
            let vars = vars.as_slice();
            turns(
                alloc,
                profiles,
                scope,
                findings,
                body,
                vars,
                *vars_place,
                starts.as_slice(),
                test,
            )
        }
        Body::Par { left, right, .. } => {
            let first = block(alloc, profiles, scope, findings, left)?;
            beside(alloc, profiles, scope, findings, first, right)
        }
        Body::Split {
            list,
            at,
            left_name,
            left,
            right_name,
            right,
            ..
        } => {
            findings.note(name_wants(scope, list, Ty::List));
            operand(alloc, scope, findings, at, Ty::Nat)?;
            let first = half(alloc, profiles, scope, findings, left_name, left)?;
            other_half(alloc, profiles, scope, findings, first, right_name, right)
        }
        Body::Either { left, right, .. } => {
            let first = block(alloc, profiles, scope, findings, left)?;
            other_side(alloc, profiles, scope, findings, first, right)
        }
        Body::Foreach {
            var,
            over,
            vars,
            vars_place,
            starts,
            body,
            ..
        } => {
            let vars = vars.as_slice();
            each(
                alloc,
                profiles,
                scope,
                findings,
                body,
                var,
                over,
                vars,
                *vars_place,
                starts.as_slice(),
            )
        }
        Body::Call { fun, args, .. } => {
            call(alloc, profiles, scope, findings, fun, args.as_slice())
        }
    }
}

/// The second of two blocks that give the same types, those of the first.
#[cycle(blocks)]
fn other_side<'a, 'p>(
    alloc: Global,
    profiles: &'p Profiles<'a>,
    scope: &mut Scope<'a>,
    findings: &mut Findings<'a>,
    first: Results,
    tree: &'a Block,
) -> Result<Gives<'p>, AllocError>
    ensures typed { let second = kinds.blk_type profiles.now (blk_of tree.now) scope.old in IfOk result (λ gives. IsGiven (gives_of gives) (kinds.types_of first.heads.items) (told_of findings.old) (told_of findings.new) (side_told first.heads.items second)) }
    ensures scope { OnOk result (scope.new ≡ scope.old) }
{
    let second = block(alloc, profiles, scope, findings, tree)?;
    let types = types_of(alloc, first.heads.as_slice())?;
    fit_results(findings, &second, types.as_slice());
    Ok(Gives::Own(types))
}

/// The second of two blocks whose results stand side by side.
#[cycle(blocks)]
fn beside<'a, 'p>(
    alloc: Global,
    profiles: &'p Profiles<'a>,
    scope: &mut Scope<'a>,
    findings: &mut Findings<'a>,
    first: Results,
    tree: &'a Block,
) -> Result<Gives<'p>, AllocError>
    ensures typed { let second = kinds.blk_type profiles.now (blk_of tree.now) scope.old in IfOk result (λ gives. IsGiven (gives_of gives) (kinds.types_of first.heads.items ++ kinds.types_of second.heads) (told_of findings.old) (told_of findings.new) (blk_told second)) }
    ensures scope { OnOk result (scope.new ≡ scope.old) }
{
    let second = block(alloc, profiles, scope, findings, tree)?;
    let mut types = types_of(alloc, first.heads.as_slice())?;
    add_types(&mut types, second.heads.as_slice(), 0)?;
    Ok(Gives::Own(types))
}

/// A block on a part of a list, which gives a list first.
#[cycle(blocks)]
fn half<'a>(
    alloc: Global,
    profiles: &Profiles<'a>,
    scope: &mut Scope<'a>,
    findings: &mut Findings<'a>,
    name: &'a Named,
    tree: &'a Block,
) -> Result<Results, AllocError>
    ensures typed { let one = kinds.blk_type profiles.now (blk_of tree.now) ((name.now.name, Some Ty.List) ∷ scope.old) in IfOk result (λ r. IsHalf r.heads.items (told_of findings.old) (told_of findings.new) one) }
    ensures scope { OnOk result (scope.new ≡ scope.old) }
{
    let mark = scope.len();
    findings.add_binder(Some(Ty::List))?;
    scope.bind(name.name.bytes(), Some(Ty::List))?;
    let results = block(alloc, profiles, scope, findings, tree)?;
    scope.leave(mark);
    fit_list(findings, &results);
    Ok(results)
}

/// The block on the other part of the list.
#[cycle(blocks)]
fn other_half<'a, 'p>(
    alloc: Global,
    profiles: &'p Profiles<'a>,
    scope: &mut Scope<'a>,
    findings: &mut Findings<'a>,
    first: Results,
    name: &'a Named,
    tree: &'a Block,
) -> Result<Gives<'p>, AllocError>
    ensures typed { let second = kinds.blk_type profiles.now (blk_of tree.now) ((name.now.name, Some Ty.List) ∷ scope.old) in
        IfOk result (λ gives. IsGiven (gives_of gives) (halves_types first.heads.items second.heads) (told_of findings.old) (told_of findings.new) (half_told second)) }
    ensures scope { OnOk result (scope.new ≡ scope.old) }
{
    let second = half(alloc, profiles, scope, findings, name, tree)?;
    let mut types = vec![in alloc; Some(Ty::List)]?;
    add_types(&mut types, first.heads.as_slice(), 1)?;
    add_types(&mut types, second.heads.as_slice(), 1)?;
    Ok(Gives::Own(types))
}

/// A loop: the values with which it begins, its test, and its block.
#[cycle(blocks)]
fn turns<'a, 'p>(
    alloc: Global,
    profiles: &'p Profiles<'a>,
    scope: &mut Scope<'a>,
    findings: &mut Findings<'a>,
    body: &'a Block,
    vars: &'a [Named],
    vars_place: Place,
    starts: &'a [Expr],
    test: &'a Expr,
) -> Result<Gives<'p>, AllocError>
    ensures typed { IfOk result (λ gives. IsBod (gives_of gives) (told_of findings.old) (told_of findings.new) (kinds.bod_type profiles.now (trees.While nowhere vars.now vars_place (all_exps starts.now) (exp_of test.now) (blk_of body.now)) scope.old)) }
    ensures scope { OnOk result (scope.new ≡ scope.old) }
{
    let heads = exprs(alloc, scope, findings, starts)?;
    let types = types_of(alloc, heads.as_slice())?;
    drop(heads);
    let mark = scope.len();
    findings.add_binders(vars, types.as_slice())?;
    bind_all(scope, vars, types.as_slice())?;
    operand(alloc, scope, findings, test, Ty::Bool)?;
    let results = block(alloc, profiles, scope, findings, body)?;
    scope.leave(mark);
    fit_turns(
        alloc,
        findings,
        vars_place,
        vars,
        types.as_slice(),
        &results,
    )?;
    Ok(Gives::Own(types))
}

/// A loop over a set.
#[cycle(blocks)]
fn each<'a, 'p>(
    alloc: Global,
    profiles: &'p Profiles<'a>,
    scope: &mut Scope<'a>,
    findings: &mut Findings<'a>,
    body: &'a Block,
    var: &'a Named,
    over: &'a Named,
    vars: &'a [Named],
    vars_place: Place,
    starts: &'a [Expr],
) -> Result<Gives<'p>, AllocError>
    ensures typed { IfOk result (λ gives. IsBod (gives_of gives) (told_of findings.old) (told_of findings.new) (kinds.bod_type profiles.now (trees.Foreach nowhere var.now over.now vars.now vars_place (all_exps starts.now) (blk_of body.now)) scope.old)) }
    ensures scope { OnOk result (scope.new ≡ scope.old) }
{
    findings.note(name_wants(scope, over, Ty::Set));
    let heads = exprs(alloc, scope, findings, starts)?;
    let types = types_of(alloc, heads.as_slice())?;
    drop(heads);
    let mark = scope.len();
    findings.add_binder(Some(Ty::Nat))?;
    findings.add_binders(vars, types.as_slice())?;
    scope.bind(var.name.bytes(), Some(Ty::Nat))?;
    bind_all(scope, vars, types.as_slice())?;
    let results = block(alloc, profiles, scope, findings, body)?;
    scope.leave(mark);
    fit_turns(
        alloc,
        findings,
        vars_place,
        vars,
        types.as_slice(),
        &results,
    )?;
    Ok(Gives::Own(types))
}
