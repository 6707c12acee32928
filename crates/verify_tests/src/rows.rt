//! The smallest derivation, and its program changed.

use crate::outcome::{is_told, told};
use crate::texts::FIRST;
use std::test::Fail;

/// A program that reads the second element.
const SECOND: &str =
    "sepref 1\nin xs array kept\nout word\nproc main 3 5\n  r3 = const 1\n  r4 = call array_get(r0, r1, r2, r3)\n  ret r4\nend\nproc array_get 4 6\n  r4 = add r1 r3\n  r5 = load r0 r4\n  ret r5\nend\n";

/// One that moves the place to another register first.
const MOVED: &str =
    "sepref 1\nin xs array kept\nout word\nproc main 3 6\n  r3 = const 0\n  r5 = mov r3\n  r4 = call array_get(r0, r1, r2, r5)\n  ret r4\nend\nproc array_get 4 6\n  r4 = add r1 r3\n  r5 = load r0 r4\n  ret r5\nend\n";

#[test]
fn the_first_element_is_verified(rt: HostRuntime) -> Result<(), Fail> {
    let count = told(rt.alloc(), FIRST, 0, &[(FIRST.2, "ok\n")])?;
    assert_eq!(rt; count, 1);
    let told = is_told(
        rt.alloc(),
        (FIRST.0, MOVED, ""),
        b"row array_get\n",
        0,
        b"ok\n",
    )?;
    assert!(rt; told);
    Ok(())
}

#[test]
fn another_place_and_other_rows_are_not(rt: HostRuntime) -> Result<(), Fail> {
    let told_other = is_told(
        rt.alloc(),
        (FIRST.0, SECOND, ""),
        b"row array_get\n",
        16,
        b"! no proof 1\n",
    )?;
    assert!(rt; told_other);
    let cases = [
        ("", "! no proof 1\n"),
        ("row array_set\n", "! no proof 1\n"),
        ("row array_get", "! no proof 1\n"),
        ("row array_get \n", "! no proof 1\n"),
        (" row array_get\n", "! no proof 1\n"),
        ("reg\n", "! no proof 1\n"),
        ("calc\n", "! no proof 1\n"),
        ("use\n", "! no proof 1\n"),
        ("\nrow array_get\n", "! no proof 1\n"),
        ("row array_get\n\n", "! no proof 2\n"),
        ("row array_get\nrow array_get\n", "! no proof 2\n"),
    ];
    let count = told(rt.alloc(), FIRST, 16, &cases)?;
    assert_eq!(rt; count, cases.len());
    Ok(())
}
