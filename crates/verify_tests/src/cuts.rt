//! Derivations that have a line more.

use crate::outcome::{Text, is_told};
use crate::texts::{DEDUP, DOWN, FIRST, LEFT, RIGHT};
use std::alloc::Global;
use std::test::Fail;

/// How many lines there are.
fn line_count(bytes: &[u8]) -> usize {
    let mut lines: usize = 0;
    for byte in bytes {
        if *byte == b'\n' {
            lines = lines.wrapping_add(1);
        }
    }
    lines
}

/// The line of what is not verified.
fn no_proof(alloc: Global, line: usize) -> Result<String, Fail> {
    Ok(format!(in alloc; "! no proof {line}\n")?)
}

/// Whether one more line is told.
fn more_is_told(alloc: Global, text: Text) -> Result<bool, Fail> {
    let mut bytes = Vec::from_slice(alloc, text.2.as_bytes())?;
    let line = no_proof(alloc, line_count(bytes.as_slice()).wrapping_add(1))?;
    bytes.extend_from_slice(b"calc\n")?;
    is_told(alloc, text, bytes.as_slice(), 16, line.as_bytes())
}

#[test]
fn a_line_more_is_told(rt: HostRuntime) -> Result<(), Fail> {
    for text in [FIRST, DEDUP, LEFT, RIGHT, DOWN] {
        let found = more_is_told(rt.alloc(), text)?;
        assert!(rt; found);
    }
    Ok(())
}
