//! The texts of numbers, of truth values, and of what stands in containers.

ghost use Rattle.std.specs.Prelude.{◌≡◌, ◌++◌, codes, decimal, OnOk};
ghost use Rattle.relations.specs.ResultLines as texts;

use std::alloc::AllocError;
use target_code::push_number;

pub fn truth(value: bool) -> &'static [u8]
    ensures { result.now ≡ texts.truth_text value }
{
    if value { b"true" } else { b"false" }
}

/// The numbers, with commas between them.
fn numbers(out: &mut Vec<u8>, list: &[u64]) -> Result<(), AllocError>
    ensures { OnOk result (out.new.items ≡ out.old.items ++ texts.listed (texts.numbers list.now)) }
{
    if let [first, others @ ..] = list {
        push_number(out, *first)?;
        'each: for other in others {
            out.extend_from_slice(b", ")?;
            push_number(out, *other)?;
        }
    }
    Ok(())
}

/// The numbers between two texts.
pub fn enclosed(
    out: &mut Vec<u8>,
    before: &[u8],
    list: &[u64],
    behind: &[u8],
) -> Result<(), AllocError>
    ensures { OnOk result (out.new.items ≡ out.old.items ++ (before.now ++ (texts.listed (texts.numbers list.now) ++ behind.now))) }
{
    out.extend_from_slice(before)?;
    numbers(out, list)?;
    out.extend_from_slice(behind)
}

fn pair(out: &mut Vec<u8>, pair: (u64, u64)) -> Result<(), AllocError>
    ensures { OnOk result (out.new.items ≡ out.old.items ++ (decimal pair.0 ++ codes ": " ++ decimal pair.1)) }
{
    push_number(out, pair.0)?;
    out.extend_from_slice(b": ")?;
    push_number(out, pair.1)
}

/// The pairs, with commas between them.
fn pairs(out: &mut Vec<u8>, list: &[(u64, u64)]) -> Result<(), AllocError>
    ensures { OnOk result (out.new.items ≡ out.old.items ++ texts.listed (texts.pairs list.now)) }
{
    if let [first, others @ ..] = list {
        pair(out, *first)?;
        'each: for other in others {
            out.extend_from_slice(b", ")?;
            pair(out, *other)?;
        }
    }
    Ok(())
}

/// A map, by its pairs. The empty one has a colon, which tells it from the empty set.
pub fn map(out: &mut Vec<u8>, list: &[(u64, u64)]) -> Result<(), AllocError>
    ensures { OnOk result (out.new.items ≡ out.old.items ++ texts.map_text list.now) }
{
    match list {
        [] => out.extend_from_slice(b"{:}"),
        _ => {
            out.extend_from_slice(b"{")?;
            pairs(out, list)?;
            out.extend_from_slice(b"}")
        }
    }
}
