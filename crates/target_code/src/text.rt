//! Texts that programs and specifications share: numbers, representations, and the spaces before a line.

ghost use Rattle.std.specs.Prelude.{◌≡◌, ◌++◌, decimal, OnOk};
ghost use Rattle.target_code.specs.Texts as texts;

use crate::tree::Rep;
use itoa::Buffer;
use std::alloc::AllocError;

/// Puts the decimal digits of a number behind what stands in `out`. Answers an error where memory runs out.
pub fn push_number(out: &mut Vec<u8>, number: u64) -> Result<(), AllocError>
    ensures { OnOk result (out.new.items ≡ out.old.items ++ decimal number) }
{
    let mut buffer = Buffer::new();
    out.extend_from_slice(buffer.format(number).as_bytes())
}

/// A representation with a bound.
fn push_bounded(out: &mut Vec<u8>, word: &[u8], bound: u32) -> Result<(), AllocError>
    ensures { OnOk result (out.new.items ≡ out.old.items ++ (word.now ++ decimal bound)) }
{
    out.extend_from_slice(word)?;
    push_number(out, u64::from(bound))
}

/// Puts the text of a representation behind what stands in `out`. Answers an error where memory runs out.
pub fn push_rep(out: &mut Vec<u8>, rep: Rep) -> Result<(), AllocError>
    ensures { OnOk result (out.new.items ≡ out.old.items ++ texts.rep_text rep) }
{
    match rep {
        Rep::Word => out.extend_from_slice(b"word"),
        Rep::Flag => out.extend_from_slice(b"flag"),
        Rep::Array => out.extend_from_slice(b"array"),
        Rep::Slice => out.extend_from_slice(b"slice"),
        Rep::Vec => out.extend_from_slice(b"vec"),
        Rep::Bits(limit) => push_bounded(out, b"bits ", limit),
        Rep::Hset => out.extend_from_slice(b"hset"),
        Rep::Amap(limit) => push_bounded(out, b"amap ", limit),
        Rep::Hmap => out.extend_from_slice(b"hmap"),
        Rep::Heap => out.extend_from_slice(b"heap"),
    }
}

/// Puts two spaces for each open block behind what stands in `out`. Answers an error where memory runs out.
pub fn push_indent(out: &mut Vec<u8>, level: u64) -> Result<(), AllocError>
    ensures { OnOk result (out.new.items ≡ out.old.items ++ texts.indent level) }
{
    for _ in 0..level {
        out.extend_from_slice(b"  ")?;
    }
    Ok(())
}
