//! Parts that are none, and programs that do not stand as a whole.

use crate::outcome::{is_answered, is_told};
use crate::texts::FIRST;
use std::alloc::Global;
use std::test::Fail;

/// Whether texts are answered so: how many of the first.
fn answered(alloc: Global, cases: &[(&str, u8, &str)]) -> Result<usize, Fail> {
    for (at, case) in cases.iter().enumerate() {
        let input = Vec::from_slice(alloc, case.0.as_bytes())?;
        if !is_answered(alloc, input, case.1, case.2.as_bytes())? {
            return Ok(at);
        }
    }
    Ok(cases.len())
}

#[test]
fn parts_that_are_none_are_told(rt: HostRuntime) -> Result<(), Fail> {
    let cases = [
        ("", 2, "! syntax 1 1\n"),
        ("--- program\n", 2, "! syntax 1 1\n"),
        (
            "spec a () : nat\n  return 1\n--- program\n",
            2,
            "! syntax 3 1\n",
        ),
        (
            "spec a () : nat\n  return b\nend\n--- program\n",
            3,
            "! type 2 10 unbound b\n",
        ),
        (
            "spec a () : nat\n  return b\nend\n",
            3,
            "! type 2 10 unbound b\n",
        ),
        (
            "spec a () : nat\n  return 1\nend\n",
            9,
            "! not a program 1\n",
        ),
        (
            "spec a () : nat\n  return 1\nend\n--- program\n",
            9,
            "! not a program 1\n",
        ),
        (
            "spec a () : nat\n  return 1\nend\n--- program\nsepref 1\nout word\nproc main 0 1\n  r1 = const 1\n",
            9,
            "! not a program 4\n",
        ),
        (
            "spec a () : nat\n  return 1\nend\n--- program\nsepref 1\nout word\nproc main 0 1\n  r0 = const 1\n  ret r0\nend\n",
            0,
            "ok\n",
        ),
        (
            "spec a () : nat\n  return 1\nend\n--- program\nsepref 1\nout word\nproc main 0 1\n  r0 = const 1\n  ret r0\nend\n--- proof\n",
            0,
            "ok\n",
        ),
        (
            "spec a () : nat\n  return 1\nend\nwith b = 7\n--- program\nsepref 1\nout word\nproc main 0 1\n  r0 = const 1\n  ret r0\nend\n--- proof\n",
            0,
            "ok\n",
        ),
        (
            "spec a () : nat\n  return 1\nend\n--- program\nsepref 1\nout word\nproc main 0 1\n  r0 = const 2\n  ret r0\nend\n--- proof\n",
            16,
            "! no proof 1\n",
        ),
        (
            "spec a () : nat\n  return 1\nend\n--- proof\n--- program\n",
            2,
            "! syntax 4 1\n",
        ),
        (
            "spec a () : nat\n  return 1\nend\n --- program\n",
            2,
            "! syntax 4 2\n",
        ),
    ];
    let count = answered(rt.alloc(), &cases)?;
    assert_eq!(rt; count, cases.len());
    Ok(())
}

/// Programs that are formed, and do not stand for the specification: with another input, another result, another text of the
/// library's procedure, a procedure of the library that nobody calls, and a branch that nobody is.
const STRANGERS: [&str; 6] = [
    "sepref 1\nin ys array kept\nout word\nproc main 3 5\n  r3 = const 0\n  r4 = call array_get(r0, r1, r2, r3)\n  ret r4\nend\nproc array_get 4 6\n  r4 = add r1 r3\n  r5 = load r0 r4\n  ret r5\nend\n",
    "sepref 1\nin xs array\nout word\nproc main 3 5\n  r3 = const 0\n  r4 = call array_get(r0, r1, r2, r3)\n  ret r4\nend\nproc array_get 4 6\n  r4 = add r1 r3\n  r5 = load r0 r4\n  ret r5\nend\n",
    "sepref 1\nin xs array kept\nout flag\nproc main 3 5\n  r3 = const 0\n  r4 = call array_get(r0, r1, r2, r3)\n  ret r4\nend\nproc array_get 4 6\n  r4 = add r1 r3\n  r5 = load r0 r4\n  ret r5\nend\n",
    "sepref 1\nin xs array kept\nout word\nproc main 3 5\n  r3 = const 0\n  r4 = call array_get(r0, r1, r2, r3)\n  ret r4\nend\nproc array_get 4 6\n  r4 = add r3 r1\n  r5 = load r0 r4\n  ret r5\nend\n",
    "sepref 1\nin xs array kept\nout word\nproc main 3 5\n  r3 = const 0\n  r4 = call array_get(r0, r1, r2, r3)\n  ret r4\nend\nproc array_get 4 6\n  r4 = add r1 r3\n  r5 = load r0 r4\n  ret r5\nend\nproc array_zeros 1 3\n  r1 = alloc r0\n  ret r1, r2, r0\nend\n",
    "sepref 1\nin xs array kept\nout word\nproc main 3 5\n  r3 = const 0\n  r4 = call array_get(r0, r1, r2, r3)\n  ret r4\nend\nproc b1 0 0\n  ret\nend\nproc array_get 4 6\n  r4 = add r1 r3\n  r5 = load r0 r4\n  ret r5\nend\n",
];

#[test]
fn programs_that_do_not_stand_are_told_the_first_line(rt: HostRuntime) -> Result<(), Fail> {
    for program in STRANGERS {
        let found = is_told(
            rt.alloc(),
            (FIRST.0, program, ""),
            b"row array_get\n",
            16,
            b"! no proof 1\n",
        )?;
        assert!(rt; found);
    }
    Ok(())
}
