//! Inputs that are no program with values.

use crate::outcome::{Case, Outcome, answered};
use std::test::Fail;

/// Texts, and the line or the place at which they are refused.
const PROGRAMS: [Case; 17] = [
    ("", Outcome::Tells(9, "! not a program 1\n")),
    (
        "sepref 1\nout word\nproc main 0 1\n  r01 = const 5\n  ret r0\nend\n",
        Outcome::Tells(9, "! not a program 4\n"),
    ),
    (
        "sepref 1\nin xs array kept\nout word\nproc main 3 5\n  r3 = const 0\n  r4 = call array_get(r0, r1, r2, r3)\n",
        Outcome::Tells(9, "! not a program 7\n"),
    ),
    (
        "sepref 1\nin xs array kept\nout word\nproc main 3 5\n  r3 = const 0\n  r4 = call array_get(r0, r1, r2, r3)\n  ret r4\nend\n",
        Outcome::Tells(9, "! not a program 9\n"),
    ),
    (
        "sepref 1\nin xs array kept\nout word\nproc main 2 5\n  r3 = const 0\n  r4 = call array_get(r0, r1, r2, r3)\n  ret r4\nend\nproc array_get 4 6\n  r4 = add r1 r3\n  r5 = load r0 r4\n  ret r5\nend\n",
        Outcome::Tells(9, "! not a program 4\n"),
    ),
    (
        "sepref 1\nin xs array kept\nout word\nproc main 3 5\n  r3 = const 0\n  r4 = call array_get(r0, r1, r2, r9)\n  ret r4\nend\nproc array_get 4 6\n  r4 = add r1 r3\n  r5 = load r0 r4\n  ret r5\nend\n",
        Outcome::Tells(9, "! not a program 6\n"),
    ),
    (
        "sepref 1\nin xs array kept\nout word\nproc main 3 5\n  r3 = const 0\n  r4 = call array_get(r0, r1, r2, r3)\n  ret\nend\nproc array_get 4 6\n  r4 = add r1 r3\n  r5 = load r0 r4\n  ret r5\nend\n",
        Outcome::Tells(9, "! not a program 7\n"),
    ),
    (
        "sepref 1\nin xs array kept\nout word\nproc main 3 5\n  r3 = const 0\n  r4 = call array_get(r0, r1, r2, r3)\n  ret r4\nend\nproc array_get 3 6\n  r4 = add r1 r3\n  r5 = load r0 r4\n  ret r5\nend\n",
        Outcome::Tells(9, "! not a program 9\n"),
    ),
    (
        "sepref 1\nin xs array kept\nout word\nproc main 3 5\n  r3 = const 0\n  r4 = call array_get(r0, r1, r2, r3)\n  ret r4\nend\nproc array_get 4 6\n  r4 = add r1  r3\n  r5 = load r0 r4\n  ret r5\nend\n",
        Outcome::Tells(9, "! not a program 10\n"),
    ),
    (
        "sepref 1\nin xs array kept\nout word\nproc main 3 5\n  r3 = const 0\n  r4 = call array_get(r0, r1, r2, r3)\n  ret r4\nend\nproc array_get 4 6\n  r4 = add r1 r3\n  r5 = load r0 r4\n  ret r6\nend\n",
        Outcome::Tells(9, "! not a program 12\n"),
    ),
    (
        "sepref 1\nin xs array kept\nout word\nproc main 3 5\n  r3 = const 0\n  r4 = call array_get(r0, r1, r2, r3)\n  ret r4\nend\nproc array_get 4 6\n  r4 = add r1 r3\n  r5 = load r0 r4\n  ret r5\nend",
        Outcome::Tells(9, "! not a program 13\n"),
    ),
    (
        "sepref 1\nin xs array kept\nout word\nproc main 3 5\n  r3 = const 0\n  r4 = call array_get(r0, r1, r2, r3)\nwith xs 7\n",
        Outcome::Tells(9, "! not a program 7\n"),
    ),
    (
        "sepref 1\nin xs array kept\nout word\nproc main 3 5\n  r3 = const 0\n  r4 = call array_get(r0, r1, r2, r3)\n  ret r4\nend\nproc array_get 4 6\n  r4 = add r1 r3\n  r5 = load r0 r4\n  ret r5\nend\nwith xs 7\n",
        Outcome::Tells(2, "! syntax 14 9\n"),
    ),
    (
        "sepref 1\nin xs array kept\nout word\nproc main 3 5\n  r3 = const 0\n  r4 = call array_get(r0, r1, r2, r3)\n  ret r4\nend\nproc array_get 4 6\n  r4 = add r1 r3\n  r5 = load r0 r4\n  ret r5\nend\nwith xs = [7\n",
        Outcome::Tells(2, "! syntax 15 1\n"),
    ),
    (
        "sepref 1\nin xs array kept\nout word\nproc main 3 5\n  r3 = const 0\n  r4 = call array_get(r0, r1, r2, r3)\n  ret r4\nend\nproc array_get 4 6\n  r4 = add r1 r3\n  r5 = load r0 r4\n  ret r5\nend\nwith y = [7\n",
        Outcome::Tells(2, "! syntax 15 1\n"),
    ),
    (
        "sepref 1\nin xs array kept\nout word\nproc main 3 5\n  r3 = const 0\n  r4 = call array_get(r0, r1, r2, r3)\n  ret r4\nend\nproc array_get 4 6\n  r4 = add r1 r3\n  r5 = load r0 r4\n  ret r5\nend\nwith xs = 7\nend\n",
        Outcome::Tells(2, "! syntax 15 1\n"),
    ),
    (
        "sepref 1\nin xs array kept\nout word\nproc main 3 5\n  r3 = const 0\n  r4 = call array_get(r0, r1, r2, r3)\n  ret r4\nend\nproc array_get 4 6\n  r4 = add r1 r3\n  r5 = load r0 r4\n  ret r5\nend\nwith\n",
        Outcome::Tells(9, "! not a program 14\n"),
    ),
];

#[test]
fn what_is_no_program_with_values_is_told(rt: HostRuntime) -> Result<(), Fail> {
    let count = answered(rt.alloc(), &PROGRAMS)?;
    assert_eq!(rt; count, PROGRAMS.len());
    Ok(())
}
