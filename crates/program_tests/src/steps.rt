//! Programs that the machine runs.

use crate::reading::{FIRST_ELEMENT, TWO_READERS, program};
use sqlite_items::Items;
use std::alloc::{AllocError, Global};
use std::test::Fail;
use target_code::{Calc, Program};
use target_meaning::calc::calc;
use target_meaning::{Reason, Side, State, StepAnswer, step};

const ROOT: &[Side] = &[];

const LEFT: &[Side] = &[Side::Left];

const RIGHT: &[Side] = &[Side::Right];

/// How many steps of the root move, at most so many.
fn moves(
    alloc: Global,
    program: &Program,
    state: &mut State,
    most: u64,
) -> Result<u64, AllocError> {
    for made in 0..most {
        if step(alloc, program, state, ROOT, 0)? != StepAnswer::Moved {
            return Ok(made);
        }
    }
    Ok(most)
}

/// Whether the first of 7 and 8 is 7 after 6 steps.
fn reads_the_first(alloc: Global) -> Result<bool, AllocError> {
    let program = program(alloc, FIRST_ELEMENT)?;
    let block = [(1, Items::from_slice(alloc, &[7, 8])?)];
    let mut state = State::new(alloc, &program, &[1, 0, 2], &block, 16)?;
    let five = moves(alloc, &program, &mut state, 5)?;
    let ended = state.result().is_some();
    let one = moves(alloc, &program, &mut state, 2)?;
    let found = state.result() == Some(&[7][..]) && state.block(1) == Some(&[7, 8][..]);
    Ok(five == 5 && !ended && one == 1 && found)
}

#[test]
fn the_first_of_7_and_8_is_7_after_6_steps(rt: HostRuntime) -> Result<(), Fail> {
    assert!(rt; reads_the_first(rt.alloc())?);
    Ok(())
}

/// Steps of the two readers, with their answers.
const READERS: [(&[Side], u64, StepAnswer); 19] = [
    (LEFT, 2, StepAnswer::NoSuchLeaf),
    (ROOT, 2, StepAnswer::Moved),
    (ROOT, 0, StepAnswer::NameUsed),
    (ROOT, 3, StepAnswer::NameUsed),
    (ROOT, 2, StepAnswer::Moved),
    (ROOT, 2, StepAnswer::Moved),
    (ROOT, 2, StepAnswer::NoSuchLeaf),
    (RIGHT, 2, StepAnswer::Moved),
    (LEFT, 2, StepAnswer::Moved),
    (RIGHT, 2, StepAnswer::Moved),
    (RIGHT, 2, StepAnswer::Moved),
    (RIGHT, 2, StepAnswer::NoSuchLeaf),
    (LEFT, 2, StepAnswer::Moved),
    (ROOT, 2, StepAnswer::NoSuchLeaf),
    (LEFT, 2, StepAnswer::Moved),
    (ROOT, 2, StepAnswer::Moved),
    (ROOT, 2, StepAnswer::Moved),
    (ROOT, 2, StepAnswer::Moved),
    (ROOT, 2, StepAnswer::Ended),
];

/// Steps with one word of room, with their answers.
const NO_ROOM: [(&[Side], u64, StepAnswer); 3] = [
    (ROOT, 1, StepAnswer::Moved),
    (ROOT, 1, StepAnswer::Full),
    (ROOT, 1, StepAnswer::Full),
];

/// The number, from 1, of the first step that has another answer, 0 where each has its own.
fn first_other(
    alloc: Global,
    program: &Program,
    state: &mut State,
    steps: &[(&[Side], u64, StepAnswer)],
) -> Result<u64, AllocError> {
    let mut number: u64 = 0;
    for (path, name, answer) in steps {
        number = number.wrapping_add(1);
        if step(alloc, program, state, path, *name)? != *answer {
            return Ok(number);
        }
    }
    Ok(0)
}

/// The number of the first other answer of the two readers with so much room, and whether they end with 0 and their block is gone.
fn readers(
    alloc: Global,
    room: u64,
    steps: &[(&[Side], u64, StepAnswer)],
) -> Result<(u64, bool), AllocError> {
    let program = program(alloc, TWO_READERS)?;
    let mut state = State::new(alloc, &program, &[], &[], room)?;
    let other = first_other(alloc, &program, &mut state, steps)?;
    let read = state.result() == Some(&[0][..]) && state.block(2).is_none();
    Ok((other, read))
}

#[test]
fn two_readers_fork_and_join(rt: HostRuntime) -> Result<(), Fail> {
    let (other, read) = readers(rt.alloc(), 2, &READERS)?;
    assert_eq!(rt; other, 0);
    assert!(rt; read);
    Ok(())
}

#[test]
fn a_block_too_large_makes_the_machine_full(rt: HostRuntime) -> Result<(), Fail> {
    let (other, _) = readers(rt.alloc(), 1, &NO_ROOM)?;
    assert_eq!(rt; other, 0);
    Ok(())
}

const TOP: u64 = 18446744073709551615;

const CALCULATED: [(Calc, u64, u64, Result<u64, Reason>); 20] = [
    (Calc::Add, TOP, 2, Ok(1)),
    (Calc::Sub, 3, 5, Ok(18446744073709551614)),
    (Calc::Mul, TOP, TOP, Ok(1)),
    (Calc::Div, 17, 5, Ok(3)),
    (Calc::Div, 17, 0, Err(Reason::Zero)),
    (Calc::Mod, 17, 5, Ok(2)),
    (Calc::Mod, 0, 0, Err(Reason::Zero)),
    (Calc::Min, TOP, 0, Ok(0)),
    (Calc::Max, TOP, 0, Ok(TOP)),
    (Calc::Lt, 4, 4, Ok(0)),
    (Calc::Le, 4, 4, Ok(1)),
    (Calc::Eq, 4, 5, Ok(0)),
    (Calc::Ne, 4, 5, Ok(1)),
    (Calc::And, 12, 10, Ok(8)),
    (Calc::Or, 12, 10, Ok(14)),
    (Calc::Xor, 12, 10, Ok(6)),
    (Calc::Shl, 3, 63, Ok(9223372036854775808)),
    (Calc::Shl, 0, 64, Err(Reason::Shift)),
    (Calc::Shr, TOP, 63, Ok(1)),
    (Calc::Shr, 0, 64, Err(Reason::Shift)),
];

#[test]
fn words_are_calculated(rt: HostRuntime) {
    for (word, left, right, answer) in CALCULATED {
        assert!(rt; calc(word, left, right) == answer, "at {left} and {right}");
    }
}
