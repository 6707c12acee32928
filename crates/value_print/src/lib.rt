//! The text of values, and the lines that show results.
#![tactic(auto)]

mod elements;

ghost use Rattle.std.specs.Prelude.{◌≡◌, ◌++◌, IfOk, OnOk};
ghost use Rattle.relations.specs.ResultLines as texts;

use nres_core::Value;
use sqlite_items::Items;
use std::alloc::{AllocError, Global};
use target_code::push_number;

/// The text of a value: elements and keys ascending for sets, maps and multisets.
/// Answers an error where memory runs out.
pub fn print_value(alloc: Global, value: &Value) -> Result<Items<u8>, AllocError>
    ensures { IfOk result (λ text. text ≡ texts.value_text value.now) }
{
    let mut out = Vec::new(alloc);
    put_value(&mut out, value)?;
    Ok(Items::from_vec(out))
}

/// A line for each value: `= `, its text and a line feed.
/// Answers an error where memory runs out.
pub fn print_results(alloc: Global, values: &[Value]) -> Result<Items<u8>, AllocError>
    ensures { IfOk result (λ text. text ≡ texts.result_lines values.now) }
{
    let mut out = Vec::new(alloc);
    put_lines(&mut out, values)?;
    Ok(Items::from_vec(out))
}

fn put_lines(out: &mut Vec<u8>, values: &[Value]) -> Result<(), AllocError>
    ensures { OnOk result (out.new.items ≡ out.old.items ++ texts.result_lines values.now) }
{
    'each: for value in values {
        out.extend_from_slice(b"= ")?;
        put_value(out, value)?;
        out.push(b'\n')?;
    }
    Ok(())
}

fn put_value(out: &mut Vec<u8>, value: &Value) -> Result<(), AllocError>
    ensures { OnOk result (out.new.items ≡ out.old.items ++ texts.value_text value.now) }
{
    match value {
        Value::Nat(number) => push_number(out, *number),
        Value::Bool(truth) => out.extend_from_slice(elements::truth(*truth)),
        Value::List(list) => {
            let numbers = list.to_vec()?;
            elements::enclosed(out, b"[", numbers.as_slice(), b"]")
        }
        Value::Set(set) => {
            let numbers = set.items()?.to_vec()?;
            elements::enclosed(out, b"{", numbers.as_slice(), b"}")
        }
        Value::Map(map) => {
            let pairs = map.entries()?;
            elements::map(out, pairs.as_slice())
        }
        Value::Bag(bag) => {
            let numbers = bag.items()?.to_vec()?;
            elements::enclosed(out, b"bag [", numbers.as_slice(), b"]")
        }
    }
}
