//! Values that bodies take apart and put together.

ghost use Rattle.std.specs.Prelude.{◌≡◌, [], ◌∷◌, ◌++◌, IfOk};
ghost use Rattle.nres_core.specs.Ops.{at_line, nat_runs, truth_runs};
ghost use Rattle.nres_core.specs.Mirror.{exp_of};
ghost use Rattle.nres_core.specs.Runs.{Gave, first_path};
ghost use Rattle.nres_meaning.specs.Meaning as meaning;
ghost use Rattle.nres_meaning.specs.Meaning.{head_of, parts_out, tail_of};
ghost use Rattle.nres_eval.specs.Bodies.{any_runs, between, elements_runs, halves_runs, holds_runs, take_runs, value_runs};
ghost use Rattle.nres_eval.specs.Ends.{Tells};

use crate::end::EvalEnd;
use crate::env::Env;
use crate::expr::{applied, expr};
use nres_core::{Expr, Nums, Op, Value};
use operations::op_of;
use sqlite_items::Items;
use std::alloc::{AllocError, Global};
use target_code::Name;

/// No list has so many elements.
const MOST_ELEMENTS: usize = 1 << 32;

/// A condition.
pub fn truth(value: &Value, line: u64) -> Result<bool, EvalEnd>
    ensures { Tells result (first_path (truth_runs line value.now)) }
{
    match value {
        Value::Bool(holds) => Ok(*holds),
        _ => Err(EvalEnd::Fails(line)),
    }
}

/// A number.
fn number(value: &Value, line: u64) -> Result<u64, EvalEnd>
    ensures { Tells result (first_path (nat_runs line value.now)) }
{
    match value {
        Value::Nat(number) => Ok(*number),
        _ => Err(EvalEnd::Fails(line)),
    }
}

/// One value.
pub fn single(alloc: Global, value: Value) -> Result<Items<Value>, AllocError>
    ensures { IfOk result (λ values. values ≡ value ∷ []) }
{
    let mut values = Items::new(alloc);
    values.push(value)?;
    Ok(values)
}

/// The value of an expression as the only result.
pub fn value(alloc: Global, tree: &Expr, line: u64, env: &Env) -> Result<Items<Value>, EvalEnd>
    ensures { Tells result (first_path (value_runs line (exp_of tree.now) env.now)) }
{
    let value = expr(alloc, tree, line, env)?;
    Ok(single(alloc, value)?)
}

/// A value that is taken out of a container, and the container without it.
pub fn taken(
    alloc: Global,
    word: &Name,
    tree: &Expr,
    line: u64,
    env: &Env,
) -> Result<Items<Value>, EvalEnd>
    ensures { Tells result (first_path (take_runs line word.now (exp_of tree.now) env.now)) }
{
    let args = value(alloc, tree, line, env)?;
    let op = op_of(word, None, args.as_slice());
    applied(alloc, op, args.as_slice(), line)
}

/// The least number between two.
pub fn least_between(
    alloc: Global,
    low: &Expr,
    high: &Expr,
    line: u64,
    env: &Env,
) -> Result<Items<Value>, EvalEnd>
    ensures { Tells result (first_path (any_runs line (exp_of low.now) (exp_of high.now) env.now)) }
{
    let low = expr(alloc, low, line, env)?;
    let high = expr(alloc, high, line, env)?;
    least(alloc, &low, &high, line)
}

fn least(alloc: Global, low: &Value, high: &Value, line: u64) -> Result<Items<Value>, EvalEnd>
    ensures { Tells result (first_path (between line low.now high.now)) }
{
    let low = number(low, line)?;
    let high = number(high, line)?;
    if low >= high {
        return Err(EvalEnd::Fails(line));
    }
    Ok(single(alloc, Value::Nat(low))?)
}

/// Whether a condition holds.
pub fn holds(alloc: Global, test: &Expr, line: u64, env: &Env) -> Result<bool, EvalEnd>
    ensures { Tells result (first_path (holds_runs line (exp_of test.now) env.now)) }
{
    let value = expr(alloc, test, line, env)?;
    truth(&value, line)
}

/// The left part and the right part of a list.
pub fn halves(
    alloc: Global,
    list: &Name,
    at: &Expr,
    line: u64,
    env: &Env,
) -> Result<(Nums, Nums), EvalEnd>
    ensures { Tells result (first_path (halves_runs line list.now (exp_of at.now) env.now)) }
{
    let at = expr(alloc, at, line, env)?;
    let list = env.value(list)?;
    split(&list, &at, line)
}

fn split(list: &Value, at: &Value, line: u64) -> Result<(Nums, Nums), EvalEnd>
    ensures { Tells result (first_path (at_line line (parts_out list.now at.now))) }
{
    match (list, at) {
        (Value::List(list), Value::Nat(at)) => {
            let at = *at as usize;
            if list.len() < at {
                return Err(EvalEnd::Fails(line));
            }
            Ok(list.split_at(at)?)
        }
        _ => Err(EvalEnd::Fails(line)),
    }
}

/// The elements of a set, ascending.
pub fn elements(alloc: Global, set: &Name, line: u64, env: &Env) -> Result<Items<u64>, EvalEnd>
    ensures { Tells result (first_path (elements_runs line set.now env.now)) }
{
    let args = single(alloc, env.value(set)?)?;
    let results = applied(alloc, Some(Op::Elems), args.as_slice(), line)?;
    match results.get(0) {
        Some(Value::List(list)) => Ok(Items::from_vec(list.to_vec()?)),
        _ => Ok(Items::new(alloc)),
    }
}

/// Values and then others.
pub fn appended(mut values: Items<Value>, others: Items<Value>) -> Result<Items<Value>, EvalEnd>
    ensures { Tells result (Gave (values ++ others)) }
{
    values.append(others)?;
    Ok(values)
}

/// The joined list of two results' first, and then the others.
pub fn joined(
    alloc: Global,
    left: Items<Value>,
    right: Items<Value>,
    line: u64,
) -> Result<Items<Value>, EvalEnd>
    ensures { Tells result (first_path (meaning.joined line (head_of left) (head_of right) (tail_of left ++ tail_of right))) }
{
    let (Some(Value::List(front)), Some(Value::List(back))) = (left.get(0), right.get(0)) else {
        return Err(EvalEnd::Fails(line));
    };
    if front.len().saturating_add(back.len()) >= MOST_ELEMENTS {
        return Err(EvalEnd::Fails(line));
    }
    let mut values = single(alloc, Value::List(front.joined(back)?))?;
    values.append(tail(left))?;
    values.append(tail(right))?;
    Ok(values)
}

/// All values but the first.
fn tail(mut values: Items<Value>) -> Items<Value>
    ensures { result ≡ tail_of values }
{
    if !values.is_empty() {
        let _ = values.remove(0);
    }
    values
}
