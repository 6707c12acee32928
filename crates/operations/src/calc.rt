//! Calculations.

ghost use Rattle.nres_core.specs.Ops.{calc_out};
ghost use Rattle.operations.specs.Gives.{GivesFirst};
ghost use Rattle.nres_core.specs.declared.value.Value.TheVariants as v;

use nres_core::Value;
use target_code::Calc;

/// The value of a calculation, or none where it fails.
pub fn calculate(word: Calc, left: &Value, right: &Value) -> Option<Value>
    ensures { GivesFirst result (calc_out word left.now right.now) }
{
    match (left, right) {
        (Value::Nat(x), Value::Nat(y)) => on_numbers(word, *x, *y),
        (Value::Bool(x), Value::Bool(y)) => on_truths(word, *x, *y),
        _ => None,
    }
}

fn on_numbers(word: Calc, x: u64, y: u64) -> Option<Value>
    ensures { GivesFirst result (calc_out word (v.Nat x) (v.Nat y)) }
{
    match word {
        Calc::Add => Some(Value::Nat(x.checked_add(y)?)),
        Calc::Sub => Some(Value::Nat(x.checked_sub(y)?)),
        Calc::Mul => Some(Value::Nat(x.checked_mul(y)?)),
        Calc::Div => Some(Value::Nat(x.checked_div(y)?)),
        Calc::Mod => Some(Value::Nat(x.checked_rem(y)?)),
        Calc::Min => Some(Value::Nat(x.min(y))),
        Calc::Max => Some(Value::Nat(x.max(y))),
        Calc::Lt => Some(Value::Bool(x < y)),
        Calc::Le => Some(Value::Bool(x <= y)),
        Calc::Eq => Some(Value::Bool(x == y)),
        Calc::Ne => Some(Value::Bool(x != y)),
        Calc::And | Calc::Or | Calc::Xor | Calc::Shl | Calc::Shr => None,
    }
}

fn on_truths(word: Calc, x: bool, y: bool) -> Option<Value>
    ensures { GivesFirst result (calc_out word (v.Bool x) (v.Bool y)) }
{
    match word {
        Calc::And => Some(Value::Bool(x && y)),
        Calc::Or => Some(Value::Bool(x || y)),
        Calc::Eq => Some(Value::Bool(x == y)),
        _ => None,
    }
}
