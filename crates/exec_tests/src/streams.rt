//! Sources and sinks that fail, sources that are too long, and other words.

use crate::outcome::{NEVER, Outcome, is_answered};
use std::alloc::Global;
use std::test::Fail;

/// A program that gives a number.
const FIVE: &[u8] = b"sepref 1\nout word\nproc main 0 1\n  r0 = const 5\n  ret r0\nend\n";

/// A specification that gives a number.
const SPEC: &[u8] = b"spec five () : nat\n  return 5\nend\n";

#[test]
fn a_failing_read_is_told(rt: HostRuntime) -> Result<(), Fail> {
    for read in 0..4_u64 {
        let told = is_answered(
            rt.alloc(),
            "exec",
            FIVE,
            (read, NEVER),
            Outcome::Tells(20, "! read fault\n"),
        )?;
        assert!(rt; told, "the read {read}");
    }
    Ok(())
}

#[test]
fn a_failing_write_leaves_a_front(rt: HostRuntime) -> Result<(), Fail> {
    let lost = is_answered(rt.alloc(), "exec", FIVE, (NEVER, 0), Outcome::Tells(21, ""))?;
    assert!(rt; lost);
    let kept = is_answered(
        rt.alloc(),
        "exec",
        FIVE,
        (NEVER, 1),
        Outcome::Shows("= 5\n"),
    )?;
    assert!(rt; kept);
    Ok(())
}

/// So many blanks.
fn blanks(alloc: Global, count: usize) -> Result<Vec<u8>, Fail> {
    Ok(vec![in alloc; b' '; count]?)
}

#[test]
fn a_long_input_is_told(rt: HostRuntime) -> Result<(), Fail> {
    let long = blanks(rt.alloc(), 1_048_577)?;
    let told = is_answered(
        rt.alloc(),
        "exec",
        long.as_slice(),
        (NEVER, NEVER),
        Outcome::Tells(11, "! too long\n"),
    )?;
    assert!(rt; told);
    let longest = blanks(rt.alloc(), 1_048_576)?;
    let told = is_answered(
        rt.alloc(),
        "exec",
        longest.as_slice(),
        (NEVER, NEVER),
        Outcome::Tells(9, "! not a program 1\n"),
    )?;
    assert!(rt; told);
    Ok(())
}

#[test]
fn other_words_are_served_as_before(rt: HostRuntime) -> Result<(), Fail> {
    let usage = is_answered(
        rt.alloc(),
        "execute",
        FIVE,
        (NEVER, NEVER),
        Outcome::Tells(1, "! usage\n"),
    )?;
    assert!(rt; usage);
    let result = is_answered(
        rt.alloc(),
        "eval",
        SPEC,
        (NEVER, NEVER),
        Outcome::Shows("= 5\n"),
    )?;
    assert!(rt; result);
    Ok(())
}
