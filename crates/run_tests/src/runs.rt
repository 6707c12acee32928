//! Programs without forks.

use crate::ends::{Outcome, ROOT, ends, ends_on_block};
use std::test::Fail;
use target_meaning::Reason;

/// Reads the first element of an array by a call.
const FIRST_ELEMENT: &[u8] =
    b"sepref 1\nin xs array kept\nout word\nproc main 3 5\n  r3 = const 0\n  r4 = call array_get(r0, r1, r2, r3)\n  ret r4\nend\nproc array_get 4 6\n  r4 = add r1 r3\n  r5 = load r0 r4\n  ret r5\nend\n";

/// Calls itself.
const AGAIN: &[u8] = b"sepref 1\nout word\nproc main 0 1\n  r0 = call main()\n  ret r0\nend\n";

/// Loops for ever.
const SPIN: &[u8] =
    b"sepref 1\nout word\nproc main 0 1\n  r0 = const 1\n  while\n  do r0\n  end\n  ret r0\nend\n";

/// Loads from a block that nobody has.
const STRAY: &[u8] =
    b"sepref 1\nout word\nproc main 0 2\n  r0 = const 3\n  r1 = load r0 r0\n  ret r1\nend\n";

/// Divides by 0.
const DIVIDES: &[u8] =
    b"sepref 1\nout word\nproc main 0 2\n  r0 = const 3\n  r0 = div r0 r1\n  ret r0\nend\n";

/// Stores behind the end of its block.
const BEHIND: &[u8] =
    b"sepref 1\nout word\nproc main 0 2\n  r0 = const 4\n  r1 = alloc r0\n  store r1 r0 r0\n  ret r0\nend\n";

/// Claims 6 words, and 7.
const SIX: &[u8] =
    b"sepref 1\nout word\nproc main 0 2\n  r0 = const 6\n  r1 = alloc r0\n  free r1\n  ret r0\nend\n";

const SEVEN: &[u8] =
    b"sepref 1\nout word\nproc main 0 2\n  r0 = const 7\n  r1 = alloc r0\n  free r1\n  ret r0\nend\n";

/// Frees a block twice, and loads from one that is freed.
const TWICE_FREED: &[u8] =
    b"sepref 1\nout word\nproc main 0 2\n  r0 = const 1\n  r1 = alloc r0\n  free r1\n  free r1\n  ret r0\nend\n";

const LOADS_FREED: &[u8] =
    b"sepref 1\nout word\nproc main 0 3\n  r0 = const 1\n  r1 = alloc r0\n  free r1\n  r0 = load r1 r2\n  ret r0\nend\n";

#[test]
fn the_first_of_7_and_8_is_7(rt: HostRuntime) -> Result<(), Fail> {
    assert_eq!(rt;
        ends_on_block(rt.alloc(), FIRST_ELEMENT, 6)?,
        Outcome::Done { first: 7, steps: 6 }
    );
    assert_eq!(rt;
        ends_on_block(rt.alloc(), FIRST_ELEMENT, 5)?,
        Outcome::OutOfSteps(ROOT)
    );
    Ok(())
}

#[test]
fn frames_are_counted(rt: HostRuntime) -> Result<(), Fail> {
    assert_eq!(rt; ends(rt.alloc(), AGAIN, 100_000, 16)?, Outcome::Depth(ROOT));
    assert_eq!(rt;
        ends(rt.alloc(), AGAIN, 9_999, 16)?,
        Outcome::OutOfSteps(ROOT)
    );
    Ok(())
}

#[test]
fn a_loop_runs_out_of_steps(rt: HostRuntime) -> Result<(), Fail> {
    assert_eq!(rt;
        ends(rt.alloc(), SPIN, 1_000, 16)?,
        Outcome::OutOfSteps(ROOT)
    );
    Ok(())
}

#[test]
fn seven_words_hold_six_and_a_name(rt: HostRuntime) -> Result<(), Fail> {
    assert_eq!(rt;
        ends(rt.alloc(), SIX, 100, 7)?,
        Outcome::Done { first: 6, steps: 4 }
    );
    assert_eq!(rt;
        ends(rt.alloc(), SEVEN, 100, 7)?,
        Outcome::Full { at: 0, len: 7 }
    );
    Ok(())
}

#[test]
fn stuck_leaves_tell_why(rt: HostRuntime) -> Result<(), Fail> {
    let zero = Outcome::Stuck {
        place: ROOT,
        line: 2,
        reason: Reason::Zero,
    };
    let index = Outcome::Stuck {
        place: ROOT,
        line: 3,
        reason: Reason::Index,
    };
    assert_eq!(rt; ends(rt.alloc(), DIVIDES, 100, 16)?, zero);
    assert_eq!(rt; ends(rt.alloc(), BEHIND, 100, 16)?, index);
    Ok(())
}

#[test]
fn what_nobody_has_is_unowned(rt: HostRuntime) -> Result<(), Fail> {
    let stray = Outcome::Unowned {
        place: ROOT,
        letter: b'm',
        line: 2,
        block: 3,
        offset: 3,
    };
    assert_eq!(rt; ends(rt.alloc(), STRAY, 100, 16)?, stray);
    Ok(())
}

#[test]
fn a_freed_block_is_unowned(rt: HostRuntime) -> Result<(), Fail> {
    let freed = Outcome::Unowned {
        place: ROOT,
        letter: b'm',
        line: 4,
        block: 1,
        offset: 0,
    };
    assert_eq!(rt; ends(rt.alloc(), TWICE_FREED, 100, 16)?, freed);
    assert_eq!(rt; ends(rt.alloc(), LOADS_FREED, 100, 16)?, freed);
    Ok(())
}
