//! Arithmetic.

ghost use Rattle.std.specs.Prelude.{◌≡◌};
ghost use Rattle.target_meaning.specs.Leaf.{calc_of};
ghost use Rattle.target_meaning.specs.Kept.{number_of};

use crate::answer::Reason;
use target_code::Calc;

fn quotient(left: u64, right: u64) -> Result<u64, Reason>
    ensures { number_of result ≡ calc_of Calc.Div left right }
{
    if right == 0 {
        Err(Reason::Zero)
    } else {
        Ok(left / right)
    }
}

fn remainder(left: u64, right: u64) -> Result<u64, Reason>
    ensures { number_of result ≡ calc_of Calc.Mod left right }
{
    if right == 0 {
        Err(Reason::Zero)
    } else {
        Ok(left % right)
    }
}

fn shift_left(left: u64, right: u64) -> Result<u64, Reason>
    ensures { number_of result ≡ calc_of Calc.Shl left right }
{
    if right < 64 {
        Ok(left << right)
    } else {
        Err(Reason::Shift)
    }
}

fn shift_right(left: u64, right: u64) -> Result<u64, Reason>
    ensures { number_of result ≡ calc_of Calc.Shr left right }
{
    if right < 64 {
        Ok(left >> right)
    } else {
        Err(Reason::Shift)
    }
}

/// What an operation gives, or why it gives none.
pub fn calc(word: Calc, left: u64, right: u64) -> Result<u64, Reason>
    ensures { number_of result ≡ calc_of word left right }
{
    match word {
        Calc::Add => Ok(left.wrapping_add(right)),
        Calc::Sub => Ok(left.wrapping_sub(right)),
        Calc::Mul => Ok(left.wrapping_mul(right)),
        Calc::Div => quotient(left, right),
        Calc::Mod => remainder(left, right),
        Calc::Min => Ok(left.min(right)),
        Calc::Max => Ok(left.max(right)),
        Calc::Lt => Ok((left < right) as u64),
        Calc::Le => Ok((left <= right) as u64),
        Calc::Eq => Ok((left == right) as u64),
        Calc::Ne => Ok((left != right) as u64),
        Calc::And => Ok(left & right),
        Calc::Or => Ok(left | right),
        Calc::Xor => Ok(left ^ right),
        Calc::Shl => shift_left(left, right),
        Calc::Shr => shift_right(left, right),
    }
}
