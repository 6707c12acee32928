//! Reads and writes that fail.

use crate::runs::{NEVER, ended};
use crate::texts::{FIRST, FIRST_PROGRAM};
use std::alloc::Global;
use std::test::Fail;

// The status of `synth` where this read or this write fails, where these bytes were written.
fn faulty(alloc: Global, fails: (u64, u64), output: &[u8]) -> Result<Option<u8>, Fail> {
    ended(alloc, &["synth"], FIRST.as_bytes(), fails, output)
}

// How many reads reading takes, at most 16 bytes at once, with the one that finds the end.
const READS: u64 = 6;

// How many of the first reads are told where they fail.
fn told_reads(alloc: Global) -> Result<u64, Fail> {
    for read in 0..READS {
        if faulty(alloc, (read, NEVER), b"! read fault\n")? != Some(20) {
            return Ok(read);
        }
    }
    Ok(READS)
}

// How many writes the program takes, at most 16 bytes at once.
const WRITES: usize = 12;

// How many of the first writes are told where they fail, with the front of the program that went out before.
fn told_writes(alloc: Global) -> Result<usize, Fail> {
    for write in 0..WRITES {
        let front = FIRST_PROGRAM
            .as_bytes()
            .get(..write.saturating_mul(16))
            .unwrap_or(b"");
        if faulty(alloc, (NEVER, write as u64), front)? != Some(21) {
            return Ok(write);
        }
    }
    Ok(WRITES)
}

#[test]
fn each_fault_is_told_and_loses_nothing(rt: HostRuntime) -> Result<(), Fail> {
    let reads = told_reads(rt.alloc())?;
    assert_eq!(rt; reads, READS);
    let after = faulty(rt.alloc(), (reads, NEVER), FIRST_PROGRAM.as_bytes())?;
    assert!(rt; after == Some(0));
    let writes = told_writes(rt.alloc())?;
    assert_eq!(rt; writes, WRITES);
    let usage = ended(rt.alloc(), &[], b"", (NEVER, 0), b"")?;
    assert!(rt; usage == Some(21));
    Ok(())
}
