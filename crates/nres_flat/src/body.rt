//! What gives the results of a bind.

ghost use Rattle.std.specs.Prelude.{◌≡◌, ℕ, List, IfOk, OnOk};
ghost use Rattle.nres_core.specs.FlatTree.{Binds, binds_of};
ghost use Rattle.nres_core.specs.declared.identified.IdBlock.{IdBlock as IdBlockOf};
ghost use Rattle.nres_core.specs.declared.identified.IdBody.TheVariants as bodies;
ghost use Rattle.nres_core.specs.declared.identified.IdExpr.{IdExpr as IdExprOf};
ghost use Rattle.nres_core.specs.declared.place.Named.{Named as NamedOf};
ghost use Rattle.nres_flat.specs.Adding.{AddsBody};
ghost use Rattle.nres_flat.specs.Heads.{AddsDivided, AddsFirst, AddsTested};
ghost use Rattle.nres_flat.specs.Lookups.{number_in};

use crate::block::{block, part, results};
use crate::divided::{Cut, end_split};
use crate::each::{SetLoop, begin_each, end_each, first_binds};
use crate::ends::{end_call, end_either, end_if, end_par};
use crate::expr::{expr, exprs};
use crate::known::{arg_at, number_of};
use crate::looped::{begin_loop, end_loop};
use crate::names::Names;
use crate::plain::{any, take, value};
use nres_core::{Arg, FlatBind, FlatBlock, IdBlock, IdBody, IdExpr, Named, Place};
use scopes::Scope;
use sqlite_items::Items;
use std::alloc::{AllocError, Global};

/// What the results stand for, which get the names of a pattern, behind the binds that give them.
#[cycle(block)]
pub fn body<'a>(
    alloc: Global,
    tree: &'a IdBody,
    pattern: &[Named],
    scope: &mut Scope<'a, Arg>,
    procedures: &Scope<u32>,
    names: &mut Names,
    binds: &mut Items<FlatBind>,
) -> Result<Items<Arg>, AllocError>
    ensures parts { IfOk result (λ us. AddsBody (number_in procedures.now) tree.now scope.old pattern.now us (binds_of binds.old) (binds_of binds.new) names.old names.new) }
    ensures scope { OnOk result (scope.new ≡ scope.old) }
{
    match tree {
        IdBody::Value(tree) => value(alloc, tree, pattern, scope, names, binds),
        IdBody::Take { place, word, arg } => {
            take(alloc, *place, *word, arg, pattern, scope, names, binds)
        }
        IdBody::Any { place, low, high } => {
            any(alloc, *place, low, high, pattern, scope, names, binds)
        }
        IdBody::If {
            place,
            test,
            yes,
            no,
        } => {
            let test = expr(alloc, test, None, scope, names, binds)?;
            let yes = block(alloc, yes, scope, procedures, names)?;
            choice(
                alloc, no, *place, test, yes, pattern, scope, procedures, names, binds,
            )
        }
        IdBody::Par { place, left, right } => {
            let left = block(alloc, left, scope, procedures, names)?;
            beside(
                alloc, right, *place, left, pattern, scope, procedures, names, binds,
            )
        }
        IdBody::Either { place, left, right } => {
            let left = block(alloc, left, scope, procedures, names)?;
            other(
                alloc, right, *place, left, pattern, scope, procedures, names, binds,
            )
        }
        IdBody::Call { place, fun, args } => {
            let args = args.as_slice();
            call(
                alloc, *place, fun, args, pattern, scope, procedures, names, binds,
            )
        }
        IdBody::While {
            place,
            vars,
            vars_place,
            starts,
            test,
            body,
        } => {
            let (vars, starts) = (vars.as_slice(), starts.as_slice());
            turns(
                alloc,
                body,
                *place,
                vars,
                *vars_place,
                starts,
                test,
                pattern,
                scope,
                procedures,
                names,
                binds,
            )
        }
        IdBody::Split {
            place,
            list,
            at,
            left_name,
            left,
            right_name,
            right,
        } => {
            let list = arg_at(scope, list.name.bytes());
            let at = expr(alloc, at, None, scope, names, binds)?;
            let left = part(alloc, left, left_name, scope, procedures, names)?;
            let cut = Cut {
                place: *place,
                list,
                at,
            };
            other_part(
                alloc, right, right_name, cut, left, pattern, scope, procedures, names, binds,
            )
        }
        IdBody::Foreach {
            place,
            var,
            over,
            vars,
            vars_place,
            starts,
            body,
        } => {
            let (vars, starts) = (vars.as_slice(), starts.as_slice());
            each(
                alloc,
                body,
                *place,
                var,
                over,
                vars,
                *vars_place,
                starts,
                pattern,
                scope,
                procedures,
                names,
                binds,
            )
        }
    }
}

// ---- bodies with two blocks, behind the first

/// The second block of a choice by a test, and the choice.
#[cycle(block)]
fn choice<'a>(
    alloc: Global,
    tree: &'a IdBlock,
    place: Place,
    test: Arg,
    yes: FlatBlock,
    pattern: &[Named],
    scope: &mut Scope<'a, Arg>,
    procedures: &Scope<u32>,
    names: &mut Names,
    binds: &mut Items<FlatBind>,
) -> Result<Items<Arg>, AllocError>
    ensures parts { (e : IdExprOf) (bl : IdBlockOf) (x : Binds) (l : List (List ℕ)) → AddsTested (number_in procedures.now) e bl scope.old test yes x (binds_of binds.old) l names.old →
        IfOk result (λ us. AddsBody (number_in procedures.now) (bodies.If place e bl tree.now) scope.old pattern.now us x (binds_of binds.new) l names.new) }
    ensures scope { OnOk result (scope.new ≡ scope.old) }
{
    match block(alloc, tree, scope, procedures, names) {
        Ok(no) => end_if(alloc, place, pattern, test, (yes, no), names, binds),
        Err(error) => {
            drop(yes);
            Err(error)
        }
    }
}

/// The second of two blocks side by side, and both.
#[cycle(block)]
fn beside<'a>(
    alloc: Global,
    tree: &'a IdBlock,
    place: Place,
    left: FlatBlock,
    pattern: &[Named],
    scope: &mut Scope<'a, Arg>,
    procedures: &Scope<u32>,
    names: &mut Names,
    binds: &mut Items<FlatBind>,
) -> Result<Items<Arg>, AllocError>
    ensures parts { (bl : IdBlockOf) (l : List (List ℕ)) → AddsFirst (number_in procedures.now) bl scope.old left l names.old →
        IfOk result (λ us. AddsBody (number_in procedures.now) (bodies.Par place bl tree.now) scope.old pattern.now us (binds_of binds.old) (binds_of binds.new) l names.new) }
    ensures scope { OnOk result (scope.new ≡ scope.old) }
{
    match block(alloc, tree, scope, procedures, names) {
        Ok(right) => end_par(alloc, place, pattern, left, right, names, binds),
        Err(error) => {
            drop(left);
            Err(error)
        }
    }
}

/// The second of two blocks of which one runs, and both.
#[cycle(block)]
fn other<'a>(
    alloc: Global,
    tree: &'a IdBlock,
    place: Place,
    left: FlatBlock,
    pattern: &[Named],
    scope: &mut Scope<'a, Arg>,
    procedures: &Scope<u32>,
    names: &mut Names,
    binds: &mut Items<FlatBind>,
) -> Result<Items<Arg>, AllocError>
    ensures parts { (bl : IdBlockOf) (l : List (List ℕ)) → AddsFirst (number_in procedures.now) bl scope.old left l names.old →
        IfOk result (λ us. AddsBody (number_in procedures.now) (bodies.Either place bl tree.now) scope.old pattern.now us (binds_of binds.old) (binds_of binds.new) l names.new) }
    ensures scope { OnOk result (scope.new ≡ scope.old) }
{
    match block(alloc, tree, scope, procedures, names) {
        Ok(right) => end_either(alloc, place, pattern, left, right, names, binds),
        Err(error) => {
            drop(left);
            Err(error)
        }
    }
}

/// The block on the second part of a list, and the division.
#[cycle(block)]
fn other_part<'a>(
    alloc: Global,
    tree: &'a IdBlock,
    name: &'a Named,
    cut: Cut,
    left: (u32, FlatBlock),
    pattern: &[Named],
    scope: &mut Scope<'a, Arg>,
    procedures: &Scope<u32>,
    names: &mut Names,
    binds: &mut Items<FlatBind>,
) -> Result<Items<Arg>, AllocError>
    ensures parts { (list first : NamedOf) (e : IdExprOf) (bl : IdBlockOf) (x : Binds) (l : List (List ℕ)) → AddsDivided (number_in procedures.now) list e first bl scope.old cut left x (binds_of binds.old) l names.old →
        IfOk result (λ us. AddsBody (number_in procedures.now) (bodies.Split cut.place list e first bl name.now tree.now) scope.old pattern.now us x (binds_of binds.new) l names.new) }
    ensures scope { OnOk result (scope.new ≡ scope.old) }
{
    match part(alloc, tree, name, scope, procedures, names) {
        Ok(right) => end_split(alloc, cut, pattern, left, right, names, binds),
        Err(error) => {
            drop(left);
            Err(error)
        }
    }
}

// ---- loops and calls

/// A loop by a condition.
#[cycle(block)]
fn turns<'a>(
    alloc: Global,
    tree: &'a IdBlock,
    place: Place,
    vars: &'a [Named],
    vars_place: Place,
    starts: &[IdExpr],
    test: &IdExpr,
    pattern: &[Named],
    scope: &mut Scope<'a, Arg>,
    procedures: &Scope<u32>,
    names: &mut Names,
    binds: &mut Items<FlatBind>,
) -> Result<Items<Arg>, AllocError>
    ensures parts { IfOk result (λ us. AddsBody (number_in procedures.now) (bodies.While place vars.now vars_place starts.now test.now tree.now) scope.old pattern.now us (binds_of binds.old) (binds_of binds.new) names.old names.new) }
    ensures scope { OnOk result (scope.new ≡ scope.old) }
{
    let mark = scope.len();
    let head = begin_loop(alloc, vars, starts, test, scope, names, binds)?;
    match block(alloc, tree, scope, procedures, names) {
        Ok(body) => {
            scope.leave(mark);
            end_loop(alloc, place, pattern, head, body, names, binds)
        }
        Err(error) => {
            drop(head);
            Err(error)
        }
    }
}

/// A loop over a set.
#[cycle(block)]
fn each<'a>(
    alloc: Global,
    tree: &'a IdBlock,
    place: Place,
    var: &'a Named,
    over: &Named,
    vars: &'a [Named],
    vars_place: Place,
    starts: &'a [IdExpr],
    pattern: &[Named],
    scope: &mut Scope<'a, Arg>,
    procedures: &Scope<u32>,
    names: &mut Names,
    binds: &mut Items<FlatBind>,
) -> Result<Items<Arg>, AllocError>
    ensures parts { IfOk result (λ us. AddsBody (number_in procedures.now) (bodies.Foreach place var.now over.now vars.now vars_place starts.now tree.now) scope.old pattern.now us (binds_of binds.old) (binds_of binds.new) names.old names.new) }
    ensures scope { OnOk result (scope.new ≡ scope.old) }
{
    let over = arg_at(scope, over.name.bytes());
    let mark = scope.len();
    let sets = SetLoop {
        place,
        var,
        vars,
        starts,
    };
    let head = begin_each(alloc, over, &sets, scope, names, binds)?;
    let mut turn = first_binds(alloc, place, head.elements, head.index, head.element)?;
    match results(alloc, tree, scope, procedures, names, &mut turn) {
        Ok(results) => {
            scope.leave(mark);
            let turn = (turn, tree.place, results);
            end_each(alloc, place, pattern, head, turn, names, binds)
        }
        Err(error) => {
            drop((head, turn));
            Err(error)
        }
    }
}

/// A call of a procedure.
fn call(
    alloc: Global,
    place: Place,
    fun: &Named,
    args: &[IdExpr],
    pattern: &[Named],
    scope: &Scope<Arg>,
    procedures: &Scope<u32>,
    names: &mut Names,
    binds: &mut Items<FlatBind>,
) -> Result<Items<Arg>, AllocError>
    ensures { IfOk result (λ us. AddsBody (number_in procedures.now) (bodies.Call place fun.now args.now) scope.now pattern.now us (binds_of binds.old) (binds_of binds.new) names.old names.new) }
{
    let args = exprs(alloc, args, scope, names, binds)?;
    let fun = number_of(procedures, fun.name.bytes())?;
    end_call(alloc, place, pattern, fun, args, names, binds)
}
