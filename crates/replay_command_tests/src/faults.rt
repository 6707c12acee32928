//! Reads and writes that fail, inputs that are too long.

use crate::answers::RACE;
use crate::outcome::{NEVER, is_answered, whole};
use std::alloc::Global;
use std::test::Fail;

/// A schedule that finds the race.
const STEPS: &str = "at - 0\nat - 1\nat - 0\nat L 0\nat R 0\n";

#[test]
fn a_failing_read_is_told(rt: HostRuntime) -> Result<(), Fail> {
    let input = whole(rt.alloc(), RACE, STEPS)?;
    for read in 0..4_u64 {
        let told = is_answered(
            rt.alloc(),
            input.as_slice(),
            (read, NEVER),
            20,
            b"! read fault\n",
        )?;
        assert!(rt; told, "the read {read}");
    }
    Ok(())
}

#[test]
fn a_failing_write_leaves_a_front(rt: HostRuntime) -> Result<(), Fail> {
    let input = whole(rt.alloc(), RACE, STEPS)?;
    let lost = is_answered(rt.alloc(), input.as_slice(), (NEVER, 0), 21, b"")?;
    assert!(rt; lost);
    let kept = is_answered(rt.alloc(), input.as_slice(), (NEVER, 1), 0, b"race 5 L R\n")?;
    assert!(rt; kept);
    Ok(())
}

/// So many blanks.
fn blanks(alloc: Global, count: usize) -> Result<Vec<u8>, Fail> {
    Ok(vec![in alloc; b' '; count]?)
}

#[test]
fn a_long_input_is_told(rt: HostRuntime) -> Result<(), Fail> {
    let long = blanks(rt.alloc(), 1_048_577)?;
    let told = is_answered(
        rt.alloc(),
        long.as_slice(),
        (NEVER, NEVER),
        11,
        b"! too long\n",
    )?;
    assert!(rt; told);
    Ok(())
}
