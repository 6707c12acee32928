//! Values that lines give to inputs.

use crate::outcome::{Case, Outcome, answered};
use std::test::Fail;

/// Lines, and the first that is at fault.
const INPUTS: [Case; 19] = [
    (
        "sepref 1\nin xs array kept\nout word\nproc main 3 5\n  r3 = const 0\n  r4 = call array_get(r0, r1, r2, r3)\n  ret r4\nend\nproc array_get 4 6\n  r4 = add r1 r3\n  r5 = load r0 r4\n  ret r5\nend\n",
        Outcome::Tells(5, "! input xs missing\n"),
    ),
    (
        "sepref 1\nin xs array kept\nout word\nproc main 3 5\n  r3 = const 0\n  r4 = call array_get(r0, r1, r2, r3)\n  ret r4\nend\nproc array_get 4 6\n  r4 = add r1 r3\n  r5 = load r0 r4\n  ret r5\nend\nwith xs = [7]\nwith y = 1\n",
        Outcome::Tells(5, "! input y unknown\n"),
    ),
    (
        "sepref 1\nin xs array kept\nout word\nproc main 3 5\n  r3 = const 0\n  r4 = call array_get(r0, r1, r2, r3)\n  ret r4\nend\nproc array_get 4 6\n  r4 = add r1 r3\n  r5 = load r0 r4\n  ret r5\nend\nwith xs = [7]\nwith xs = [8]\n",
        Outcome::Tells(5, "! input xs twice\n"),
    ),
    (
        "sepref 1\nin xs array kept\nout word\nproc main 3 5\n  r3 = const 0\n  r4 = call array_get(r0, r1, r2, r3)\n  ret r4\nend\nproc array_get 4 6\n  r4 = add r1 r3\n  r5 = load r0 r4\n  ret r5\nend\nwith xs = {7}\n",
        Outcome::Tells(5, "! input xs type\n"),
    ),
    (
        "sepref 1\nin xs array kept\nout word\nproc main 3 5\n  r3 = const 0\n  r4 = call array_get(r0, r1, r2, r3)\n  ret r4\nend\nproc array_get 4 6\n  r4 = add r1 r3\n  r5 = load r0 r4\n  ret r5\nend\nwith xs = 7\n",
        Outcome::Tells(5, "! input xs type\n"),
    ),
    (
        "sepref 1\nin s bits 10 kept\nout word\nproc main 2 2\n  ret r1\nend\nwith s = {3, 12, 10}\n",
        Outcome::Tells(5, "! input s fit 10\n"),
    ),
    (
        "sepref 1\nin s bits 10 kept\nout word\nproc main 2 2\n  ret r1\nend\nwith s = {3, 9}\n",
        Outcome::Shows("= 2\n"),
    ),
    (
        "sepref 1\nin s bits 10 kept\nout word\nproc main 2 2\n  ret r1\nend\nwith s = {1: 2}\n",
        Outcome::Tells(5, "! input s type\n"),
    ),
    (
        "sepref 1\nin m amap 4 kept\nout word\nproc main 2 2\n  ret r1\nend\nwith m = {3: 9, 4: 1}\n",
        Outcome::Tells(5, "! input m fit 4\n"),
    ),
    (
        "sepref 1\nin m amap 4 kept\nout word\nproc main 2 2\n  ret r1\nend\nwith m = {3: 9}\n",
        Outcome::Shows("= 1\n"),
    ),
    (
        "sepref 1\nin n word\nin xs array kept\nout word\nproc main 4 4\n  ret r0\nend\nwith y = true\n",
        Outcome::Tells(5, "! input y unknown\n"),
    ),
    (
        "sepref 1\nin n word\nin xs array kept\nout word\nproc main 4 4\n  ret r0\nend\nwith n = true\nwith y = 1\n",
        Outcome::Tells(5, "! input n type\n"),
    ),
    (
        "sepref 1\nin n word\nin xs array kept\nout word\nproc main 4 4\n  ret r0\nend\nwith n = 1\nwith n = true\n",
        Outcome::Tells(5, "! input n twice\n"),
    ),
    (
        "sepref 1\nin n word\nin xs array kept\nout word\nproc main 4 4\n  ret r0\nend\nwith xs = [1]\n",
        Outcome::Tells(5, "! input n missing\n"),
    ),
    (
        "sepref 1\nin n word\nin xs array kept\nout word\nproc main 4 4\n  ret r0\nend\n",
        Outcome::Tells(5, "! input n missing\n"),
    ),
    (
        "sepref 1\nin n word\nin xs array kept\nout word\nproc main 4 4\n  ret r0\nend\nwith xs = [1]\nwith n = 4\n",
        Outcome::Shows("= 4\n"),
    ),
    (
        "sepref 1\nin b flag\nproc main 1 1\n  ret\nend\nwith b = 1\n",
        Outcome::Tells(5, "! input b type\n"),
    ),
    (
        "sepref 1\nin n word\nproc main 1 1\n  ret\nend\nwith n = true\n",
        Outcome::Tells(5, "! input n type\n"),
    ),
    (
        "sepref 1\nin h heap\nproc main 3 3\n  free r0\n  ret\nend\nwith h = [1]\n",
        Outcome::Tells(5, "! input h type\n"),
    ),
];

#[test]
fn the_first_fault_of_the_values_is_told(rt: HostRuntime) -> Result<(), Fail> {
    let count = answered(rt.alloc(), &INPUTS)?;
    assert_eq!(rt; count, INPUTS.len());
    Ok(())
}
