//! Heaps of other sizes.

use crate::answers::{FIRST, RACE};
use crate::outcome::whole;
use sepref_replay::replay_told;
use std::alloc::Global;
use std::test::Fail;

/// Inputs with a heap of so many words, and the status and the output that they are answered.
const HEAPS: [(&str, &str, u64, u8, &str); 8] = [
    (
        RACE,
        "at - 0\nat - 1\nat - 0\nat L 0\nat R 0\n",
        1,
        0,
        "full 2\n",
    ),
    (RACE, "at - 0\nat - 2\n", 1, 0, "full 2\n"),
    (RACE, "at - 0\nat - 2\n", 2, 0, "open 2\n"),
    (RACE, "at - 0\nat - 3\n", 2, 18, "! step 2 name used\n"),
    (FIRST, "with xs = [7, 8]\nat - 0\n", 2, 8, "! heap 0 2\n"),
    (FIRST, "with xs = [7, 8]\nat - 0\n", 3, 0, "open 1\n"),
    (
        FIRST,
        "with xs = [7, 8]\nat X\n",
        2,
        17,
        "! not a schedule 15\n",
    ),
    (
        FIRST,
        "with ys = [7, 8]\nat - 0\n",
        2,
        5,
        "! input ys unknown\n",
    ),
];

/// How many of the first inputs are answered as they should be.
fn told(alloc: Global) -> Result<usize, Fail> {
    for (at, case) in HEAPS.iter().enumerate() {
        let input = whole(alloc, case.0, case.1)?;
        if input.len() > 1_048_576 {
            return Ok(at);
        }
        let (cause, output) = replay_told(alloc, input.as_slice(), case.2)?;
        if cause.code() != case.3 || output.as_slice() != case.4.as_bytes() {
            return Ok(at);
        }
    }
    Ok(HEAPS.len())
}

/// The second of two inputs is the first that does not fit.
const TWO: &str = "sepref 1\nin xs array\nin ys array\nproc main 6 6\n  ret\nend\n";

#[test]
fn heaps_are_told(rt: HostRuntime) -> Result<(), Fail> {
    let count = told(rt.alloc())?;
    assert_eq!(rt; count, HEAPS.len());
    Ok(())
}

#[test]
fn the_first_block_that_does_not_fit_is_told(rt: HostRuntime) -> Result<(), Fail> {
    let input = whole(
        rt.alloc(),
        TWO,
        "with xs = [1, 2, 3]\nwith ys = [4, 5]\nat - 0\n",
    )?;
    assert!(rt; input.len() < 1_048_576);
    let (cause, output) = replay_told(rt.alloc(), input.as_slice(), 6)?;
    assert_eq!(rt; cause.code(), 8);
    assert!(rt; output.as_slice() == b"! heap 4 2\n".as_slice());
    let (cause, output) = replay_told(rt.alloc(), input.as_slice(), 7)?;
    assert_eq!(rt; cause.code(), 0);
    assert!(rt; output.as_slice() == b"end 1\n".as_slice());
    Ok(())
}
