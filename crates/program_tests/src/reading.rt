//! Programs that are read, and printed back.

use std::alloc::{AllocError, Global};
use std::test::Fail;
use target_code::Program;
use target_text::{print_program, read_program};

/// The program that reads the first element of an array by a call.
pub const FIRST_ELEMENT: &[u8] =
    b"sepref 1\nin xs array kept\nout word\nproc main 3 5\n  r3 = const 0\n  r4 = call array_get(r0, r1, r2, r3)\n  ret r4\nend\nproc array_get 4 6\n  r4 = add r1 r3\n  r5 = load r0 r4\n  ret r5\nend\n";

/// The program that claims a block of one word, lends it to two readers, and frees it.
pub const TWO_READERS: &[u8] =
    b"sepref 2\nout word\nproc main 0 4\n  r0 = const 1\n  r1 = alloc r0\n  par r2 = v(r1) hand [] lend [r1] | r3 = v(r1) hand [] lend [r1]\n  free r1\n  ret r2\nend\nproc v 1 3\n  r1 = const 0\n  r2 = load r0 r1\n  ret r2\nend\n";

/// Texts of programs.
const TEXTS: [&[u8]; 10] = [
    FIRST_ELEMENT,
    TWO_READERS,
    b"sepref 1\nout word\nproc main 0 4\n  r0 = const 1\n  r1 = alloc r0\n  par r2 = w(r1) hand [] | r3 = w(r1) hand []\n  free r1\n  ret r2\nend\nproc w 1 2\n  r1 = const 0\n  store r0 r1 r1\n  ret r1\nend\n",
    b"sepref 2\nout word\nproc main 0 4\n  r0 = const 1\n  r1 = alloc r0\n  par r2 = v(r1) hand [] lend [r1] | r3 = v(r1) hand [] lend [r1]\n  free r1\n  ret r2\nend\nproc v 1 3\n  r1 = const 0\n  r2 = load r0 r1\n  ret r2\nend\nproc w 1 3\n  r1 = const 0\n  store r0 r1 r1\n  ret r1\nend\n",
    b"sepref 1\nproc main 0 4\n  if r0\n    while\n    do r1\n      par f() hand [r0 from r1 for r2, r3] | f() hand []\n    end\n  else\n  end\n  ret\nend\nproc f 0 0\n  ret\nend\n",
    b"sepref 1\nproc main 0 0\n  ret\nend\n",
    b"sepref 1\nout word\nproc main 0 1\n  r0 = const 1\n  ret r0\nend\n",
    b"sepref 1\nout word\nproc main 0 2\n  par r0 = main() hand [] | r1 = w() hand []\n  ret r0\nend\nproc w 0 1\n  ret r0\nend\n",
    b"sepref 1\nout word\nproc main 0 2\n  par r0 = w() hand [] | r1 = w() hand []\n  ret r0\nend\nproc w 0 1\n  ret r0\nend\n",
    b"sepref 1\nout word\nproc main 0 1\n  r0 = call main()\n  ret r0\nend\n",
];

/// The program of a text. A refusal is no want of memory, but ends a test like it.
pub fn program(alloc: Global, text: &[u8]) -> Result<Program, AllocError> {
    read_program(alloc, text).map_err(|_| AllocError)
}

/// Whether a text is read, and printed back as it was.
fn is_printed_back(alloc: Global, text: &[u8]) -> Result<bool, AllocError> {
    let program = program(alloc, text)?;
    match print_program(alloc, &program) {
        Ok(printed) => Ok(printed.as_slice() == text),
        Err(error) => Err(error),
    }
}

/// Whether each text is read, and printed back as it was.
fn are_printed_back(alloc: Global, texts: &[&[u8]]) -> Result<bool, AllocError> {
    for text in texts {
        if !is_printed_back(alloc, text)? {
            return Ok(false);
        }
    }
    Ok(true)
}

#[test]
fn texts_are_read_and_printed_back(rt: HostRuntime) -> Result<(), Fail> {
    assert!(rt; are_printed_back(rt.alloc(), &TEXTS)?);
    Ok(())
}

/// Writes a call that gives 100,000 results, and calls of 10,000 procedures.
fn write_calls(alloc: Global, text: &mut Vec<u8>) -> Result<(), AllocError> {
    text.extend_from_slice(b"sepref 1\nproc main 0 100000\n  r0")?;
    for register in 1..100_000_u32 {
        text.extend_from_slice(format!(in alloc; ", r{register}")?.as_bytes())?;
    }
    text.extend_from_slice(b" = call wide()\n")?;
    for number in 0..10_000_u32 {
        text.extend_from_slice(format!(in alloc; "  call p{number}()\n")?.as_bytes())?;
    }
    text.extend_from_slice(b"  ret\nend\n")
}

/// Writes the procedures that are called.
fn write_procedures(alloc: Global, text: &mut Vec<u8>) -> Result<(), AllocError> {
    text.extend_from_slice(b"proc wide 0 1\n  ret r0")?;
    for _ in 1..100_000_u32 {
        text.extend_from_slice(b", r0")?;
    }
    text.extend_from_slice(b"\nend\n")?;
    for number in 0..10_000_u32 {
        text.extend_from_slice(format!(in alloc; "proc p{number} 0 0\n  ret\nend\n")?.as_bytes())?;
    }
    Ok(())
}

/// Whether the long text is read, and printed back as it was.
fn long_is_printed_back(alloc: Global) -> Result<bool, AllocError> {
    let mut text = Vec::new(alloc);
    write_calls(alloc, &mut text)?;
    write_procedures(alloc, &mut text)?;
    is_printed_back(alloc, text.as_slice())
}

#[test]
fn a_long_text_is_read_and_printed_back(rt: HostRuntime) -> Result<(), Fail> {
    assert!(rt; long_is_printed_back(rt.alloc())?);
    Ok(())
}
