//! The value that registers and a whole block represent.

ghost use Rattle.std.specs.Prelude.{◌≡◌, ◌↔◌, IfOk, length, Some, None};
ghost use Rattle.target_code.specs.Reps.{width};
ghost use Rattle.image_laws.specs.Laws.{IsRead};
ghost use Rattle.image_laws.specs.Reads as rules;
ghost use Rattle.decoding.specs.Slots.{words_of};

use crate::{bounded, lists, tables};
use nres_core::Value;
use std::alloc::{AllocError, Global};
use target_code::Rep;

// The value in one register.
fn bare(rep: Rep, regs: &[u64]) -> Option<Value>
    requires { length regs.now ≡ width rep }
    ensures { result ≡ rules.reads rep regs.now None }
{
    match rep {
        Rep::Word => Some(Value::Nat(regs[0])),
        Rep::Flag => lists::flag(regs[0]),
        _ => None,
    }
}

// The value in a block.
fn whole(alloc: Global, rep: Rep, regs: &[u64], words: &[u64]) -> Result<Option<Value>, AllocError>
    requires { length regs.now ≡ width rep }
    ensures { IfOk result (λ o. o ≡ rules.reads rep regs.now (Some words.now)) }
{
    match rep {
        Rep::Word | Rep::Flag | Rep::Slice => Ok(None),
        Rep::Array => lists::array(alloc, regs[1], regs[2], words),
        Rep::Vec => lists::vector(alloc, regs[1], regs[2], words),
        Rep::Heap => lists::heap(alloc, regs[1], regs[2], words),
        Rep::Bits(bound) => bounded::bits(alloc, bound, regs[1], words),
        Rep::Amap(bound) => bounded::marks(alloc, bound, regs[1], words),
        Rep::Hset => tables::set(alloc, regs[1], regs[2], regs[3], words),
        Rep::Hmap => tables::map(alloc, regs[1], regs[2], regs[3], words),
    }
}

// The value that registers and the words of a block represent.
fn in_block(
    alloc: Global,
    rep: Rep,
    regs: &[u64],
    words: &[u64],
) -> Result<Option<Value>, AllocError>
    requires { length regs.now ≡ width rep }
    ensures { IfOk result (λ o. (x : _) → (o ≡ Some x) ↔ IsRead rep regs.now (Some words.now) x) }
{
    whole(alloc, rep, regs, words)
}

/// The value that registers, as many as the representation has, and a whole block represent; none where they represent
/// none. The first register of a container is the block's name, and the block is all of its words. A slice, a part of
/// someone else's block, represents nothing here.
pub fn decode(
    alloc: Global,
    rep: Rep,
    regs: &[u64],
    block: Option<&[u64]>,
) -> Result<Option<Value>, AllocError>
    requires { length regs.now ≡ width rep }
    ensures { IfOk result (λ o. (x : _) → (o ≡ Some x) ↔ IsRead rep regs.now (words_of block.entry) x) }
{
    match block {
        None => Ok(bare(rep, regs)),
        Some(words) => in_block(alloc, rep, regs, words),
    }
}
