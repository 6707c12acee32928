//! Blocks that are read as values, blocks that are read as nothing, and images.

use decoding::decode;
use nres_core::Value;
use std::alloc::{AllocError, Global};
use std::test::Fail;
use target_code::Rep;

/// A representation, registers and the words of a block.
type Block = (Rep, &'static [u64], &'static [u64]);

/// Whether a block is read as a value.
fn is_read(alloc: Global, block: &Block) -> Result<bool, AllocError> {
    let (rep, regs, words) = *block;
    if regs.len() != rep.width() {
        return Ok(false);
    }
    let value = decode(alloc, rep, regs, Some(words))?;
    Ok(value.is_some())
}

/// Whether each of some blocks is read as a value, or none.
fn all_read(alloc: Global, blocks: &[Block], wanted: bool) -> Result<bool, AllocError> {
    let mut all = true;
    for block in blocks {
        let read = is_read(alloc, block)?;
        all = read == wanted && all;
    }
    Ok(all)
}

/// Images, and other lawful blocks.
const READ: [Block; 11] = [
    (Rep::Array, &[9, 0, 2], &[7, 8]),
    (Rep::Vec, &[9, 0, 4], &[0, 0, 0, 0]),
    (Rep::Vec, &[9, 2, 3], &[3, 1, 9]),
    (Rep::Heap, &[9, 3, 4], &[1, 3, 2, 0]),
    (Rep::Bits(70), &[9, 2], &[8, 32]),
    (Rep::Amap(2), &[9, 1], &[0, 9, 1, 5]),
    (
        Rep::Hset,
        &[9, 8, 2, 2],
        &[1, 15, 0, 0, 0, 0, 0, 0, 0, 0, 0, 0, 0, 0, 1, 7],
    ),
    (
        Rep::Hset,
        &[9, 8, 2, 3],
        &[1, 0, 2, 8, 1, 16, 0, 0, 0, 0, 0, 0, 0, 0, 0, 0],
    ),
    (
        Rep::Hmap,
        &[9, 8, 1, 1],
        &[
            1, 8, 4, 0, 0, 0, 0, 0, 0, 0, 0, 0, 0, 0, 0, 0, 0, 0, 0, 0, 0, 0, 0, 0,
        ],
    ),
    (Rep::Array, &[9, 0, 0], &[]),
    (Rep::Bits(1), &[9, 0], &[0]),
];

/// A wrong count, a key off its way, a key twice, a heap out of order, a bit past the bound, and others.
const NOT_READ: [Block; 14] = [
    (Rep::Array, &[9, 0, 3], &[7, 8]),
    (Rep::Array, &[9, 1, 2], &[7, 8]),
    (Rep::Slice, &[9, 0, 2], &[7, 8]),
    (Rep::Word, &[7], &[]),
    (Rep::Vec, &[9, 0, 0], &[]),
    (Rep::Vec, &[9, 4, 3], &[3, 1, 9]),
    (Rep::Heap, &[9, 3, 3], &[2, 3, 1]),
    (Rep::Bits(70), &[9, 1], &[8, 32]),
    (Rep::Bits(3), &[9, 1], &[8]),
    (Rep::Amap(2), &[9, 1], &[2, 9, 1, 5]),
    (Rep::Amap(2), &[9, 2], &[0, 9, 1, 5]),
    (
        Rep::Hset,
        &[9, 8, 1, 1],
        &[0, 0, 1, 16, 0, 0, 0, 0, 0, 0, 0, 0, 0, 0, 0, 0],
    ),
    (
        Rep::Hset,
        &[9, 8, 2, 2],
        &[1, 16, 1, 16, 0, 0, 0, 0, 0, 0, 0, 0, 0, 0, 0, 0],
    ),
    (
        Rep::Hset,
        &[9, 8, 2, 1],
        &[1, 0, 1, 8, 0, 0, 0, 0, 0, 0, 0, 0, 0, 0, 0, 0],
    ),
];

#[test]
fn lawful_blocks_are_read(rt: HostRuntime) -> Result<(), Fail> {
    assert!(rt; all_read(rt.alloc(), &READ, true)?);
    Ok(())
}

#[test]
fn other_blocks_are_not_read(rt: HostRuntime) -> Result<(), Fail> {
    assert!(rt; all_read(rt.alloc(), &NOT_READ, false)?);
    Ok(())
}

/// Whether a register is read as a number.
fn number_of(alloc: Global, number: u64) -> Result<bool, AllocError> {
    match decode(alloc, Rep::Word, &[number], None)? {
        Some(Value::Nat(read)) => Ok(read == number),
        _ => Ok(false),
    }
}

/// Whether 2 is read as no truth value, and 1 as true.
fn truth_of(alloc: Global) -> Result<bool, AllocError> {
    let two = decode(alloc, Rep::Flag, &[2], None)?;
    match decode(alloc, Rep::Flag, &[1], None)? {
        Some(Value::Bool(truth)) => Ok(truth && two.is_none()),
        _ => Ok(false),
    }
}

#[test]
fn registers_are_read(rt: HostRuntime) -> Result<(), Fail> {
    assert!(rt; number_of(rt.alloc(), 7)?);
    assert!(rt; truth_of(rt.alloc())?);
    Ok(())
}
