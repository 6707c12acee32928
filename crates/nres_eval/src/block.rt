//! Blocks, their steps, and the bodies of binds.

ghost use Rattle.std.specs.Prelude.{◌≡◌, OnOk};
ghost use Rattle.nres_core.specs.Mirror.{before, blk_of, bod_of, exp_of};
ghost use Rattle.nres_core.specs.Runs.{first_path};
ghost use Rattle.nres_core.specs.Tree.{Steps, Word};
ghost use Rattle.nres_meaning.specs.Meaning.{blk_runs, bod_runs, bound, steps_runs};
ghost use Rattle.nres_meaning.specs.WordOperations.{op_named};
ghost use Rattle.nres_eval.specs.Bodies.{each_runs, holds_runs, part_runs, turns_runs};
ghost use Rattle.nres_eval.specs.Calls.{calls_of};
ghost use Rattle.nres_eval.specs.Ends.{Leads, Tells};
ghost use Rattle.nres_eval.specs.Environment.{Extends};

use crate::end::EvalEnd;
use crate::env::Env;
use crate::expr::exprs;
use crate::funs::Procedures;
use crate::parts::{appended, elements, halves, holds, joined, least_between, taken, value};
use nres_core::{Block, Body, Expr, Named, Nums, Step, Value};
use sqlite_items::Items;
use std::alloc::Global;
use target_code::Name;

/// What stays the same while a specification is evaluated.
#[derive(Drop)]
pub struct Evaluation<'a> {
    /// Where memory comes from.
    pub alloc: Global,
    /// At most so many turns of each loop.
    pub turns: u64,
    /// The procedures.
    pub procedures: Procedures<'a>,
}

/// The results of a block. Calls may still nest `depth` deep.
#[cycle(block)]
pub fn block<'a>(
    at: &Evaluation<'a>,
    depth: usize,
    tree: &'a Block,
    env: &mut Env<'a>,
) -> Result<Items<Value>, EvalEnd>
    ensures runs { Tells result (first_path (blk_runs op_named at.now.turns (calls_of at.now.procedures at.now.turns depth) (blk_of tree.now) env.old)) }
    ensures scope { OnOk result (env.new ≡ env.old) }
{
    let mark = env.len();
    for inner in tree.steps.as_slice() {
        step(at, depth, inner, env)?;
    }
    let results = exprs(at.alloc, tree.results.as_slice(), tree.place.line, env)?;
    env.leave(mark);
    Ok(results)
}

/// A step: the names that it binds are put into scope.
#[cycle(block)]
fn step<'a>(
    at: &Evaluation<'a>,
    depth: usize,
    tree: &'a Step,
    env: &mut Env<'a>,
) -> Result<(), EvalEnd>
    ensures runs { (rest : Steps Word) → Leads result (first_path (steps_runs op_named at.now.turns (calls_of at.now.procedures at.now.turns depth) rest env.new)) (first_path (steps_runs op_named at.now.turns (calls_of at.now.procedures at.now.turns depth) (before tree.now rest) env.old)) }
    ensures scope { OnOk result (Extends env.old env.new) }
{
    match tree {
        Step::Bind {
            names,
            place,
            body: inner,
        } => {
            let values = body(at, depth, inner, place.line, env)?;
            Ok(env.bind_all(names.as_slice(), values.as_slice())?)
        }
        Step::Assert { place, test } => {
            if holds(at.alloc, test, place.line, env)? {
                Ok(())
            } else {
                Err(EvalEnd::Fails(place.line))
            }
        }
    }
}

/// The results of the body of a bind at a line.
#[cycle(block)]
fn body<'a>(
    at: &Evaluation<'a>,
    depth: usize,
    tree: &'a Body,
    line: u64,
    env: &mut Env<'a>,
) -> Result<Items<Value>, EvalEnd>
    ensures runs { Tells result (first_path (bod_runs op_named at.now.turns (calls_of at.now.procedures at.now.turns depth) (bod_of tree.now) line env.old)) }
    ensures scope { OnOk result (env.new ≡ env.old) }
{
    match tree {
        Body::Value(tree) => value(at.alloc, tree, line, env),
        Body::Take { word, arg, .. } => taken(at.alloc, word, arg, line, env),
        Body::Any { low, high, .. } => least_between(at.alloc, low, high, line, env),
        Body::If { test, yes, no, .. } => {
            if holds(at.alloc, test, line, env)? {
                block(at, depth, yes, env)
            } else {
                block(at, depth, no, env)
            }
        }
        Body::While {
            vars,
            starts,
            test,
            body: inner,
            ..
        } => {
            let starts = exprs(at.alloc, starts.as_slice(), line, env)?;
            repeated(at, depth, inner, vars.as_slice(), test, starts, line, env)
        }
        Body::Par { left, right, .. } => {
            let values = block(at, depth, left, env)?;
            let others = block(at, depth, right, env)?;
            appended(values, others)
        }
        Body::Split {
            list,
            at: place,
            left_name,
            left,
            right_name,
            right,
            ..
        } => {
            let (front, back) = halves(at.alloc, &list.name, place, line, env)?;
            let values = on_part(at, depth, left, &left_name.name, front, env)?;
            let others = on_part(at, depth, right, &right_name.name, back, env)?;
            joined(at.alloc, values, others, line)
        }
        Body::Either { left, .. } => block(at, depth, left, env),
        Body::Foreach {
            var,
            over,
            vars,
            starts,
            body: inner,
            ..
        } => {
            let found = elements(at.alloc, &over.name, line, env)?;
            let starts = exprs(at.alloc, starts.as_slice(), line, env)?;
            each(
                at,
                depth,
                inner,
                &var.name,
                vars.as_slice(),
                found.as_slice(),
                starts,
                line,
                env,
            )
        }
        Body::Call { fun, args, .. } => {
            let args = exprs(at.alloc, args.as_slice(), line, env)?;
            call(at, depth, &fun.name, args.as_slice(), line)
        }
    }
}

/// The results of a block on a part of a list.
#[cycle(block)]
fn on_part<'a>(
    at: &Evaluation<'a>,
    depth: usize,
    tree: &'a Block,
    name: &'a Name,
    part: Nums,
    env: &mut Env<'a>,
) -> Result<Items<Value>, EvalEnd>
    ensures runs { Tells result (first_path (part_runs at.now.turns (calls_of at.now.procedures at.now.turns depth) (blk_of tree.now) name.now part env.old)) }
    ensures scope { OnOk result (env.new ≡ env.old) }
{
    let mark = env.len();
    env.bind(name, Value::List(part))?;
    let values = block(at, depth, tree, env)?;
    env.leave(mark);
    Ok(values)
}

/// The values of a loop when its test does not hold any more.
#[cycle(block)]
fn repeated<'a>(
    at: &Evaluation<'a>,
    depth: usize,
    tree: &'a Block,
    vars: &'a [Named],
    test: &'a Expr,
    starts: Items<Value>,
    line: u64,
    env: &mut Env<'a>,
) -> Result<Items<Value>, EvalEnd>
    ensures runs { Tells result (first_path (turns_runs at.now.turns (calls_of at.now.procedures at.now.turns depth) line (exp_of test.now) vars.now (blk_of tree.now) env.old at.now.turns starts)) }
    ensures scope { OnOk result (env.new ≡ env.old) }
{
    let mark = env.len();
    let mut values = starts;
    for made in 0..at.turns {
        let goes_on = tested(at.alloc, vars, test, values.as_slice(), line, env)?;
        if !goes_on {
            env.leave(mark);
            return Ok(values);
        }
        values = block(at, depth, tree, env)?;
        env.leave(mark);
    }
    let goes_on = tested(at.alloc, vars, test, values.as_slice(), line, env)?;
    if goes_on {
        return Err(EvalEnd::OutOfTurns(line));
    }
    env.leave(mark);
    Ok(values)
}

/// Whether a loop's test holds of values; the loop's names are put into scope.
fn tested<'a>(
    alloc: Global,
    vars: &'a [Named],
    test: &Expr,
    values: &[Value],
    line: u64,
    env: &mut Env<'a>,
) -> Result<bool, EvalEnd>
    ensures runs { Tells result (first_path (holds_runs line (exp_of test.now) (bound vars.now values.now env.old))) }
    ensures scope { OnOk result (env.new ≡ bound vars.now values.now env.old) }
{
    env.bind_all(vars, values)?;
    holds(alloc, test, line, env)
}

/// The values of a loop after a turn for each element.
#[cycle(block)]
fn each<'a>(
    at: &Evaluation<'a>,
    depth: usize,
    tree: &'a Block,
    var: &'a Name,
    vars: &'a [Named],
    elements: &[u64],
    starts: Items<Value>,
    line: u64,
    env: &mut Env<'a>,
) -> Result<Items<Value>, EvalEnd>
    ensures runs { Tells result (first_path (each_runs at.now.turns (calls_of at.now.procedures at.now.turns depth) line var.now vars.now (blk_of tree.now) env.old at.now.turns elements.now starts)) }
    ensures scope { OnOk result (env.new ≡ env.old) }
{
    let mark = env.len();
    let mut values = starts;
    let mut left = at.turns;
    for element in elements {
        if left == 0 {
            return Err(EvalEnd::OutOfTurns(line));
        }
        left -= 1;
        env.bind(var, Value::Nat(*element))?;
        env.bind_all(vars, values.as_slice())?;
        values = block(at, depth, tree, env)?;
        env.leave(mark);
    }
    Ok(values)
}

/// The results of a procedure.
#[cycle(block)]
fn call<'a>(
    at: &Evaluation<'a>,
    depth: usize,
    name: &Name,
    args: &[Value],
    line: u64,
) -> Result<Items<Value>, EvalEnd>
    ensures { Tells result (first_path (calls_of at.now.procedures at.now.turns depth line name.now args.now)) }
{
    if depth == 0 {
        return Err(EvalEnd::OutOfTurns(line));
    }
    let Some(fun) = at.procedures.find(name) else {
        return Err(EvalEnd::Fails(line));
    };
    let mut env = Env::new(at.alloc);
    env.bind_params(fun.params.as_slice(), args)?;
    block(at, depth - 1, &fun.body, &mut env)
}
