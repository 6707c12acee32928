//! Texts that are no program's, each with the line of its refusal.

use std::alloc::{AllocError, Global};
use std::test::Fail;
use target_code::push_indent;
use target_text::{NotProgram, read_program};

/// Texts of no program, each with the line of its refusal.
const REFUSED: [(&[u8], u64); 51] = [
    (b"", 1),
    (
        b"sepref 1\nin xs array kept\nout word\nproc main 3 5\n  r3 = const 0\n  r4 = call array_get(r0, r1, r2, r3)\n",
        7,
    ),
    (
        b"sepref 1\nin xs array kept\nout word\nproc main 3 5\n  r3 = const 0\n  r4 = call array_get(r0, r1, r2, r3)\n  ret r4\nend\n",
        9,
    ),
    (
        b"sepref 1\nin xs array kept\nout word\nproc main 2 5\n  r3 = const 0\n  r4 = call array_get(r0, r1, r2, r3)\n  ret r4\nend\nproc array_get 4 6\n  r4 = add r1 r3\n  r5 = load r0 r4\n  ret r5\nend\n",
        4,
    ),
    (
        b"sepref 1\nin xs array kept\nout word\nproc main 3 5\n  r3 = const 0\n  r4 = call array_get(r0, r1, r2, r9)\n  ret r4\nend\nproc array_get 4 6\n  r4 = add r1 r3\n  r5 = load r0 r4\n  ret r5\nend\n",
        6,
    ),
    (
        b"sepref 1\nin xs array kept\nout word\nproc main 3 5\n  r3 = const 0\n  r4 = call array_get(r0, r1, r2, r3)\n  ret\nend\nproc array_get 4 6\n  r4 = add r1 r3\n  r5 = load r0 r4\n  ret r5\nend\n",
        7,
    ),
    (
        b"sepref 1\nin xs array kept\nout word\nproc main 3 5\n  r3 = const 0\n  r4 = call array_get(r0, r1, r2, r3)\n  ret r4\nend\nproc array_get 3 6\n  r4 = add r1 r3\n  r5 = load r0 r4\n  ret r5\nend\n",
        9,
    ),
    (
        b"sepref 1\nin xs array kept\nout word\nproc main 3 5\n  r3 = const 0\n  r4 = call array_get(r0, r1, r2, r3)\n  ret r4\nend\nproc array_get 4 6\n  r4 = add r1  r3\n  r5 = load r0 r4\n  ret r5\nend\n",
        10,
    ),
    (
        b"sepref 1\nin xs array kept\nout word\nproc main 3 5\n  r3 = const 0\n  r4 = call array_get(r0, r1, r2, r3)\n  ret r4\nend\nproc array_get 4 6\n  r4 = add r1 r3\n  r5 = load r0 r4\n  ret r6\nend\n",
        12,
    ),
    (
        b"sepref 1\nin xs array kept\nout word\nproc main 3 5\n  r3 = const 0\n  r4 = call array_get(r0, r1, r2, r3)\n  ret r4\nend\nproc array_get 4 6\n  r4 = add r1 r3\n  r5 = load r0 r4\n  ret r5\nend",
        13,
    ),
    (
        b"sepref 1\nout word\nproc main 0 1\n  r01 = const 5\n  ret r0\nend\n",
        4,
    ),
    (b"sepref 3\n", 1),
    (b"sepref 1", 1),
    (b"sepref 1\n", 2),
    (
        b"sepref 1\nproc main 0 1\n  r0 = call f()\n  ret\nend\nproc f 0 0\n",
        6,
    ),
    (b"sepref 1\nproc main 0 0\n  while\n", 3),
    (b"sepref 1\nout word\nproc main 0 0\n", 3),
    (b"sepref 1\nproc main 0 1\n  call f(r0)\n  call f()\n", 4),
    (b"sepref 1\nproc main 0 1\n  r0 = call f()\n  call f()\n", 4),
    (b"sepref 1\nproc main 0 1\n  call main(r0)\n", 3),
    (b"sepref 1\nin x word\nproc main 0 1\n", 3),
    (b"sepref 1\nout word\nproc main 0 1\n  ret\n", 4),
    (b"sepref 1\nproc main 0 8388609\n", 2),
    (b"sepref 1\nproc main 0 8388608\n", 3),
    (b"sepref 1\nproc main 2 1\n", 2),
    (
        b"sepref 1\nproc main 0 1\n  par f() hand [] lend [r0] | f() hand []\n",
        3,
    ),
    (
        b"sepref 2\nproc main 0 1\n  par f() hand [] | f() hand []\n",
        3,
    ),
    (b"sepref 2\nproc main 0 0\n  ret\nend\n", 5),
    (b"sepref 1\nproc main 0 0\n  call f()\n  ret\nend\n", 6),
    (b"sepref 1\nproc main 0 0\n  ret\nend\nproc main 0 0\n", 5),
    (b"sepref 1\nin x word\nin x word\n", 3),
    (b"sepref 1\nproc f 0 0\n", 2),
    (b"sepref 1\nproc main 0 1\n  r0, r0 = call f()\n", 3),
    (
        b"sepref 1\nproc main 0 1\n  par r0 = f() hand [] | r0 = f() hand []\n",
        3,
    ),
    (b"sepref 1\nproc main 0 1\n  r01 = const 0\n", 3),
    (
        b"sepref 1\nproc main 0 1\n  r0 = const 18446744073709551616\n",
        3,
    ),
    (b"sepref 1\nproc main 0 1\n  r1 = const 0\n", 3),
    (b"sepref 1\nproc main 0 0\n  ret\nend", 4),
    (b"sepref 1\nout word\nin x word\n", 3),
    (b"sepref 1\nproc main 0 0\n  ret\nend\nout word\n", 5),
    (b"sepref 1\nin x word kept\n", 2),
    (b"sepref 1\nin x bits 0\n", 2),
    (b"sepref 1\nin x slice\n", 2),
    (b"sepref 1\nin set word\n", 2),
    (b"sepref 1\nin fun word\n", 3),
    (b"sepref 1\nout slice\n", 2),
    (
        b"sepref 1\nproc main 0 1\n  if r0\n  else\n  end\n  ret\nend\nproc F 0 0\n",
        8,
    ),
    (b"sepref 1\nproc main 0 1\n  if r0\n    ret\n", 4),
    (b"sepref 1\nproc main 0 1\n    ret\n", 3),
    (b"sepref 1\nproc main 0 1\n  else\n", 3),
    (b"sepref 1\nproc main 0 1\n  while\n  do r1\n", 4),
];

/// The line of the refusal, 0 where the text is read.
fn refused_at(alloc: Global, text: &[u8]) -> Result<u64, AllocError> {
    match read_program(alloc, text) {
        Ok(_) => Ok(0),
        Err(NotProgram::Line(line)) => Ok(line),
        Err(NotProgram::Memory) => Err(AllocError),
    }
}

/// The number, from 1, of the first text that is not refused at its line, 0 where each is.
fn first_other(alloc: Global, texts: &[(&[u8], u64)]) -> Result<u64, AllocError> {
    let mut number: u64 = 0;
    for (text, line) in texts {
        number = number.wrapping_add(1);
        if refused_at(alloc, text)? != *line {
            return Ok(number);
        }
    }
    Ok(0)
}

#[test]
fn refusals_have_their_lines(rt: HostRuntime) -> Result<(), Fail> {
    assert_eq!(rt; first_other(rt.alloc(), &REFUSED)?, 0);
    Ok(())
}

/// The line of the refusal of a text with so many `while` lines, each in the one before it.
fn nested_refused_at(alloc: Global, count: u64) -> Result<u64, AllocError> {
    let mut text = Vec::new(alloc);
    text.extend_from_slice(b"sepref 1\nproc main 0 1\n")?;
    for level in 0..count {
        push_indent(&mut text, level)?;
        text.extend_from_slice(b"  while\n")?;
    }
    refused_at(alloc, text.as_slice())
}

#[test]
fn a_hundred_blocks_are_the_most(rt: HostRuntime) -> Result<(), Fail> {
    for count in 100..103_u64 {
        assert_eq!(rt; nested_refused_at(rt.alloc(), count)?, 103, "at {count}");
    }
    Ok(())
}
