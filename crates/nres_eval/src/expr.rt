//! Expressions.

ghost use Rattle.std.specs.Prelude.{◌≡◌};
ghost use Rattle.nres_core.specs.Mirror.{exp_of, all_exps};
ghost use Rattle.nres_core.specs.Ops.{calc_runs};
ghost use Rattle.nres_core.specs.Runs.{first_path};
ghost use Rattle.nres_meaning.specs.Meaning as meaning;
ghost use Rattle.nres_meaning.specs.Meaning.{exp_runs, exps_runs, head_of};
ghost use Rattle.nres_meaning.specs.WordOperations.{op_named};
ghost use Rattle.nres_eval.specs.Ends.{Tells};

use crate::end::EvalEnd;
use crate::env::Env;
use nres_core::{Expr, Op, Value};
use operations::{calculate, op_of, operate};
use sqlite_items::Items;
use std::alloc::Global;
use target_code::Calc;

/// The value of an expression.
#[cycle(expr)]
pub fn expr(alloc: Global, tree: &Expr, line: u64, env: &Env) -> Result<Value, EvalEnd>
    ensures { Tells result (first_path (exp_runs op_named (exp_of tree.now) line env.now)) }
{
    match tree {
        Expr::Num { value, .. } => Ok(Value::Nat(*value)),
        Expr::Truth { value, .. } => Ok(Value::Bool(*value)),
        Expr::Var(named) => Ok(env.value(&named.name)?),
        Expr::Binary {
            word,
            left,
            right,
            ..
        } => {
            let left = expr(alloc, left.get(), line, env)?;
            let right = expr(alloc, right.get(), line, env)?;
            calculated(*word, &left, &right, line)
        }
        Expr::Not { arg, .. } => {
            let value = expr(alloc, arg.get(), line, env)?;
            calculated(Calc::Eq, &value, &Value::Bool(false), line)
        }
        Expr::Apply {
            word,
            args,
            made,
            ..
        } => {
            let args = exprs(alloc, args.as_slice(), line, env)?;
            let op = op_of(word, *made, args.as_slice());
            let results = applied(alloc, op, args.as_slice(), line)?;
            Ok(first_of(results))
        }
    }
}

/// The values of expressions, in order.
#[cycle(expr)]
pub fn exprs(alloc: Global, trees: &[Expr], line: u64, env: &Env) -> Result<Items<Value>, EvalEnd>
    ensures { Tells result (first_path (exps_runs op_named (all_exps trees.now) line env.now)) }
{
    let mut values = Items::new(alloc);
    for tree in trees {
        let value = expr(alloc, tree, line, env)?;
        values.push(value)?;
    }
    Ok(values)
}

/// A calculation at a line.
pub fn calculated(word: Calc, left: &Value, right: &Value, line: u64) -> Result<Value, EvalEnd>
    ensures { Tells result (first_path (calc_runs line word left.now right.now)) }
{
    match calculate(word, left, right) {
        Some(value) => Ok(value),
        None => Err(EvalEnd::Fails(line)),
    }
}

/// An operation at a line; it fails where there is none.
pub fn applied(
    alloc: Global,
    op: Option<Op>,
    args: &[Value],
    line: u64,
) -> Result<Items<Value>, EvalEnd>
    ensures { Tells result (first_path (meaning.apply line op args.now)) }
{
    let Some(op) = op else {
        return Err(EvalEnd::Fails(line));
    };
    match operate(alloc, op, args)? {
        Some(results) => Ok(results),
        None => Err(EvalEnd::Fails(line)),
    }
}

/// The first of some values, or 0.
pub fn first_of(mut values: Items<Value>) -> Value
    ensures { result ≡ head_of values }
{
    if values.is_empty() {
        return Value::Nat(0);
    }
    values.remove(0)
}
