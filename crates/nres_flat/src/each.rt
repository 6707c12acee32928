//! Loops over a set: over its elements as a list, by an index that comes last among the variables.

ghost use Rattle.std.specs.Prelude.{◌≡◌, ◌∷◌, ◌++◌, [], suc, length, IfOk, OnOk};
ghost use Rattle.nres_core.specs.FlatTree.{binds_of};
ghost use Rattle.nres_core.specs.FlatTree.{◌+++◌};
ghost use Rattle.nres_rules.specs.Flatten.{fresh, names_of, scoped, unnamed, vars as all_vars};
ghost use Rattle.nres_core.specs.Mirror.{all_id_exps};
ghost use Rattle.nres_core.specs.declared.flat.Arg.TheVariants as args;
ghost use Rattle.nres_core.specs.declared.flat.FlatBind.TheVariants as flat_binds;
ghost use Rattle.nres_core.specs.declared.flat.FlatBlock.{roll-FlatBlock};
ghost use Rattle.target_code.specs.declared.tree.Calc.TheVariants as calcs;
ghost use Rattle.nres_flat.specs.Adding.{Adds, below, operation};
ghost use Rattle.nres_flat.specs.Heads.{BeginsEach, gets, set_loop};

use crate::expr::exprs;
use crate::known::bind_all;
use crate::names::{Names, outs};
use nres_core::{Arg, FlatBind, FlatBlock, IdExpr, Named, Op, Place};
use scopes::Scope;
use sqlite_items::Items;
use std::alloc::{AllocError, Global};
use target_code::Calc;

/// The parts of a loop over a set that stand before its block.
#[derive(Drop)]
pub struct SetLoop<'a> {
    pub place: Place,
    pub var: &'a Named,
    pub vars: &'a [Named],
    pub starts: &'a [IdExpr],
}

/// What stands before the block: the list of the elements and their number, the starting values, and the variables.
#[derive(Drop)]
pub struct SetHead {
    pub elements: u32,
    pub count: u32,
    pub starts: Items<Arg>,
    pub vars: Items<u32>,
    pub index: u32,
    pub test: u32,
    pub element: u32,
}

/// An operation on one argument, for a new variable without a name.
fn operate(
    alloc: Global,
    place: Place,
    op: Op,
    arg: Arg,
    names: &mut Names,
    binds: &mut Items<FlatBind>,
) -> Result<u32, AllocError>
    ensures variable { IfOk result (λ k. k ≡ length names.old) }
    ensures adds { OnOk result (Adds (operation place (length names.old) op (arg ∷ [])) (unnamed ∷ []) (suc (length names.old)) (binds_of binds.old) (binds_of binds.new) names.old names.new) }
{
    let out = names.bind(alloc, None)?;
    binds.push(FlatBind::Apply {
        place,
        outs: Items::from_slice(alloc, &[out])?,
        op,
        made: None,
        args: Items::from_slice(alloc, &[arg])?,
    })?;
    Ok(out)
}

/// The binds that a turn begins with: it gets its element.
pub fn first_binds(
    alloc: Global,
    place: Place,
    elements: u32,
    index: u32,
    element: u32,
) -> Result<Items<FlatBind>, AllocError>
    ensures { IfOk result (λ bs. binds_of bs ≡ gets place elements index element) }
{
    let mut binds = Items::new(alloc);
    binds.push(FlatBind::Apply {
        place,
        outs: Items::from_slice(alloc, &[element])?,
        op: Op::Get,
        made: None,
        args: Items::from_slice(alloc, &[Arg::Var(elements), Arg::Var(index)])?,
    })?;
    Ok(binds)
}

/// The condition of the loop: the index is below the number of elements.
fn condition(
    alloc: Global,
    place: Place,
    out: u32,
    index: u32,
    count: u32,
) -> Result<Items<FlatBind>, AllocError>
    ensures { IfOk result (λ bs. binds_of bs ≡ below place out index count) }
{
    let mut cond = Items::new(alloc);
    cond.push(FlatBind::Calc {
        place,
        out,
        word: Calc::Lt,
        left: Arg::Var(index),
        right: Arg::Var(count),
    })?;
    Ok(cond)
}

/// The index, the test and the element, which are new variables. From here on the loop's variables, which stand for these, and the element
/// are in scope.
fn enter_turn<'a>(
    alloc: Global,
    parts: &SetLoop<'a>,
    held: &[Arg],
    scope: &mut Scope<'a, Arg>,
    names: &mut Names,
) -> Result<(u32, u32, u32), AllocError>
    ensures index { IfOk result (λ r. r.0 ≡ length names.old) }
    ensures test { IfOk result (λ r. r.1 ≡ length (names.old ++ unnamed ∷ [])) }
    ensures element { IfOk result (λ r. r.2 ≡ length ((names.old ++ unnamed ∷ []) ++ unnamed ∷ [])) }
    ensures names { OnOk result (names.new ≡ ((names.old ++ unnamed ∷ []) ++ unnamed ∷ []) ++ parts.now.var.now.name ∷ []) }
    ensures scope { IfOk result (λ r. scope.new ≡ scoped parts.now.vars.now held.now ((parts.now.var.now.name, args.Var r.2) ∷ scope.old)) }
{
    let index = names.bind(alloc, None)?;
    let test = names.bind(alloc, None)?;
    let element = names.bind(alloc, Some(&parts.var.name))?;
    scope.bind(parts.var.name.bytes(), Arg::Var(element))?;
    bind_all(scope, parts.vars, held)?;
    Ok((index, test, element))
}

/// What stands before the block. From here on the loop's variables and the element are in scope.
pub fn begin_each<'a>(
    alloc: Global,
    over: Arg,
    parts: &SetLoop<'a>,
    scope: &mut Scope<'a, Arg>,
    names: &mut Names,
    binds: &mut Items<FlatBind>,
) -> Result<SetHead, AllocError>
    ensures head { IfOk result (λ h. BeginsEach parts.now.place parts.now.var.now over parts.now.vars.now (all_id_exps parts.now.starts.now) scope.old h (binds_of binds.old) (binds_of binds.new) names.old names.new) }
    ensures scope { IfOk result (λ h. scope.new ≡ scoped parts.now.vars.now (all_vars h.vars) ((parts.now.var.now.name, args.Var h.element) ∷ scope.old)) }
{
    let elements = operate(alloc, parts.place, Op::Elems, over, names, binds)?;
    let list = Arg::Var(elements);
    let count = operate(alloc, parts.place, Op::Len, list, names, binds)?;
    let starts = exprs(alloc, parts.starts, scope, names, binds)?;
    let (vars, held) = outs(alloc, parts.vars, names)?;
    let (index, test, element) = enter_turn(alloc, parts, held.as_slice(), scope, names)?;
    Ok(SetHead {
        elements,
        count,
        starts,
        vars,
        index,
        test,
        element,
    })
}

/// The block of a turn, which counts at its end.
fn turn_block(
    alloc: Global,
    place: Place,
    index: u32,
    turn: (Items<FlatBind>, Place, Items<Arg>),
    names: &mut Names,
) -> Result<FlatBlock, AllocError>
    ensures block { IfOk result (λ b. b ≡ roll-FlatBlock (record { binds = turn.0 ++ flat_binds.Calc place (length names.old) calcs.Add (args.Var index) (args.Num 1) ∷ []; place = turn.1; results = turn.2 ++ args.Var (length names.old) ∷ [] })) }
    ensures names { OnOk result (names.new ≡ names.old ++ unnamed ∷ []) }
{
    match names.bind(alloc, None) {
        Ok(out) => counted(place, index, out, turn),
        Err(error) => {
            drop(turn);
            Err(error)
        }
    }
}

/// The block of a turn, which counts at its end into the variable.
fn counted(
    place: Place,
    index: u32,
    out: u32,
    turn: (Items<FlatBind>, Place, Items<Arg>),
) -> Result<FlatBlock, AllocError>
    ensures { IfOk result (λ b. b ≡ roll-FlatBlock (record { binds = turn.0 ++ flat_binds.Calc place out calcs.Add (args.Var index) (args.Num 1) ∷ []; place = turn.1; results = turn.2 ++ args.Var out ∷ [] })) }
{
    let (mut binds, at, mut results) = turn;
    let next = FlatBind::Calc {
        place,
        out,
        word: Calc::Add,
        left: Arg::Var(index),
        right: Arg::Num(1),
    };
    match (binds.push(next), results.push(Arg::Var(out))) {
        (Ok(()), Ok(())) => Ok(FlatBlock {
            binds,
            place: at,
            results,
        }),
        _ => {
            drop((binds, results));
            Err(AllocError)
        }
    }
}

/// The condition of the loop, its variables with the index, and its starting values with that of the index.
#[derive(Drop)]
struct CountedParts {
    cond: Items<FlatBind>,
    vars: Items<u32>,
    starts: Items<Arg>,
}

fn counting(alloc: Global, place: Place, head: SetHead) -> Result<CountedParts, AllocError>
    ensures cond { IfOk result (λ r. binds_of r.cond ≡ below place head.test head.index head.count) }
    ensures vars { IfOk result (λ r. r.vars ≡ head.vars ++ head.index ∷ []) }
    ensures starts { IfOk result (λ r. r.starts ≡ head.starts ++ args.Num 0 ∷ []) }
{
    let SetHead {
        count,
        mut starts,
        mut vars,
        index,
        test,
        ..
    } = head;
    vars.push(index)?;
    starts.push(Arg::Num(0))?;
    let cond = condition(alloc, place, test, index, count)?;
    Ok(CountedParts { cond, vars, starts })
}

/// The variables of the results, with the next index behind them, and what the results stand for.
fn counted_outs(
    alloc: Global,
    pattern: &[Named],
    names: &mut Names,
) -> Result<(Items<u32>, Items<Arg>), AllocError>
    ensures numbers { IfOk result (λ r. r.0 ≡ fresh pattern.now (length names.old) ++ length (names.old ++ names_of pattern.now) ∷ []) }
    ensures args { IfOk result (λ r. r.1 ≡ all_vars (fresh pattern.now (length names.old))) }
    ensures names { OnOk result (names.new ≡ (names.old ++ names_of pattern.now) ++ unnamed ∷ []) }
{
    let (mut numbers, results) = outs(alloc, pattern, names)?;
    numbers.push(names.bind(alloc, None)?)?;
    Ok((numbers, results))
}

/// The parts of the loop beside its block: the condition, the variables and the starting values, and the variables of the results, with
/// what these stand for.
fn loop_parts(
    alloc: Global,
    place: Place,
    pattern: &[Named],
    head: SetHead,
    names: &mut Names,
) -> Result<(CountedParts, (Items<u32>, Items<Arg>)), AllocError>
    ensures cond { IfOk result (λ r. binds_of r.0.cond ≡ below place head.test head.index head.count) }
    ensures vars { IfOk result (λ r. r.0.vars ≡ head.vars ++ head.index ∷ []) }
    ensures starts { IfOk result (λ r. r.0.starts ≡ head.starts ++ args.Num 0 ∷ []) }
    ensures numbers { IfOk result (λ r. r.1.0 ≡ fresh pattern.now (length names.old) ++ length (names.old ++ names_of pattern.now) ∷ []) }
    ensures args { IfOk result (λ r. r.1.1 ≡ all_vars (fresh pattern.now (length names.old))) }
    ensures names { OnOk result (names.new ≡ (names.old ++ names_of pattern.now) ++ unnamed ∷ []) }
{
    let counting = counting(alloc, place, head)?;
    match counted_outs(alloc, pattern, names) {
        Ok(outs) => Ok((counting, outs)),
        Err(error) => {
            drop(counting);
            Err(error)
        }
    }
}

/// The loop, whose block has these binds, this place and these results, and what the results of the loop stand for.
pub fn end_each(
    alloc: Global,
    place: Place,
    pattern: &[Named],
    head: SetHead,
    turn: (Items<FlatBind>, Place, Items<Arg>),
    names: &mut Names,
    binds: &mut Items<FlatBind>,
) -> Result<Items<Arg>, AllocError>
    ensures results { IfOk result (λ us. us ≡ all_vars (fresh pattern.now (suc (length names.old)))) }
    ensures binds { OnOk result (binds_of binds.new ≡ binds_of binds.old +++ set_loop place pattern.now head turn.0 turn.1 turn.2 (length names.old)) }
    ensures names { OnOk result (names.new ≡ ((names.old ++ unnamed ∷ []) ++ names_of pattern.now) ++ unnamed ∷ []) }
{
    let (index, test) = (head.index, head.test);
    let body = turn_block(alloc, place, index, turn, names)?;
    match loop_parts(alloc, place, pattern, head, names) {
        Ok((counting, (outs, results))) => {
            let CountedParts { cond, vars, starts } = counting;
            binds.push(FlatBind::While {
                place,
                outs,
                vars,
                starts,
                cond,
                test: Arg::Var(test),
                body,
            })?;
            Ok(results)
        }
        Err(error) => {
            drop(body);
            Err(error)
        }
    }
}
