//! What results are.

use crate::outcome::{Case, Outcome, answered};
use std::test::Fail;

/// Programs on values, and the lines of their results.
const RESULTS: [Case; 21] = [
    (
        "sepref 1\nin xs array kept\nout word\nproc main 3 5\n  r3 = const 0\n  r4 = call array_get(r0, r1, r2, r3)\n  ret r4\nend\nproc array_get 4 6\n  r4 = add r1 r3\n  r5 = load r0 r4\n  ret r5\nend\nwith xs = [7, 8]\n",
        Outcome::Shows("= 7\n"),
    ),
    (
        "sepref 1\nin xs array kept\nout word\nproc main 3 5\n  r3 = const 0\n  r4 = call array_get(r0, r1, r2, r3)\n  ret r4\nend\nproc array_get 4 6\n  r4 = add r1 r3\n  r5 = load r0 r4\n  ret r5\nend\nwith xs = [7, 8]",
        Outcome::Shows("= 7\n"),
    ),
    (
        "sepref 1\nout word\nproc main 0 1\n  r0 = const 18446744073709551615\n  ret r0\nend\n",
        Outcome::Shows("= 18446744073709551615\n"),
    ),
    ("sepref 1\nproc main 0 0\n  ret\nend\n", Outcome::Shows("")),
    (
        "sepref 1\nin b flag\nout flag\nproc main 1 1\n  ret r0\nend\nwith b = true\n",
        Outcome::Shows("= true\n"),
    ),
    (
        "sepref 1\nin n word\nin b flag\nout flag\nout word\nproc main 2 2\n  ret r1, r0\nend\nwith b = false\nwith n = 5\n",
        Outcome::Shows("= false\n= 5\n"),
    ),
    (
        "sepref 1\nin xs vec\nout vec\nproc main 3 3\n  ret r0, r1, r2\nend\nwith xs = [3, 1]\n",
        Outcome::Shows("= [3, 1]\n"),
    ),
    (
        "sepref 1\nin xs array\nout array\nproc main 3 3\n  ret r0, r1, r2\nend\nwith xs = []\n",
        Outcome::Shows("= []\n"),
    ),
    (
        "sepref 1\nin s bits 10\nout bits 10\nproc main 2 2\n  ret r0, r1\nend\nwith s = {9, 3, 0}\n",
        Outcome::Shows("= {0, 3, 9}\n"),
    ),
    (
        "sepref 1\nin s hset\nout hset\nproc main 4 4\n  ret r0, r1, r2, r3\nend\nwith s = {16, 8, 0}\n",
        Outcome::Shows("= {0, 8, 16}\n"),
    ),
    (
        "sepref 1\nin m amap 6\nout amap 6\nproc main 2 2\n  ret r0, r1\nend\nwith m = {5: 1, 2: 7}\n",
        Outcome::Shows("= {2: 7, 5: 1}\n"),
    ),
    (
        "sepref 1\nin m hmap\nout hmap\nproc main 4 4\n  ret r0, r1, r2, r3\nend\nwith m = {:}\n",
        Outcome::Shows("= {:}\n"),
    ),
    (
        "sepref 1\nin h heap\nout heap\nproc main 3 3\n  ret r0, r1, r2\nend\nwith h = bag [2, 1, 2]\n",
        Outcome::Shows("= bag [1, 2, 2]\n"),
    ),
    (
        "sepref 1\nin xs array\nout array\nout array\nproc main 3 3\n  ret r0, r1, r2, r0, r1, r2\nend\nwith xs = [7, 8]\n",
        Outcome::Shows("= [7, 8]\n= [7, 8]\n"),
    ),
    (
        "sepref 1\nout array\nproc main 0 4\n  r1 = const 1\n  r0 = alloc r1\n  r3 = const 9\n  store r0 r2 r3\n  ret r0, r2, r1\nend\n",
        Outcome::Shows("= [9]\n"),
    ),
    (
        "sepref 1\nin a array\nin b array\nin c array\nout word\nout word\nout word\nproc main 9 9\n  ret r0, r3, r6\nend\nwith c = [1]\nwith b = []\nwith a = [7, 8]\n",
        Outcome::Shows("= 1\n= 4\n= 5\n"),
    ),
    (
        "sepref 1\nin a word\nin b array\nout word\nout word\nproc main 4 4\n  ret r0, r1\nend\nwith a = 6\nwith b = [7]\n",
        Outcome::Shows("= 6\n= 1\n"),
    ),
    (
        "sepref 1\nin a array\nout word\nout word\nproc main 3 6\n  free r0\n  r4 = alloc r3\n  r5 = alloc r3\n  ret r4, r5\nend\nwith a = [7, 8]\n",
        Outcome::Shows("= 4\n= 5\n"),
    ),
    (
        "sepref 2\nout word\nproc main 0 4\n  r0 = const 1\n  r1 = alloc r0\n  par r2 = v(r1) hand [] lend [r1] | r3 = v(r1) hand [] lend [r1]\n  free r1\n  ret r2\nend\nproc v 1 3\n  r1 = const 0\n  r2 = load r0 r1\n  ret r2\nend\nproc w 1 3\n  r1 = const 0\n  store r0 r1 r1\n  ret r1\nend\n",
        Outcome::Shows("= 0\n"),
    ),
    (
        "sepref 1\nout word\nproc main 0 2\n  par r0 = w() hand [] | r1 = w() hand []\n  ret r0\nend\nproc w 0 1\n  ret r0\nend\n",
        Outcome::Shows("= 0\n"),
    ),
    (
        "sepref 1\nin xs array\nout array\nproc main 3 6\n  r3 = const 1\n  par put(r0, r1) hand [r0 from r1 for r3] | put(r0, r3) hand [r0 from r3 for r3]\n  ret r0, r1, r2\nend\nproc put 2 3\n  r2 = const 5\n  store r0 r1 r2\n  ret\nend\nwith xs = [1, 2]\n",
        Outcome::Shows("= [5, 5]\n"),
    ),
];

/// Results that represent no value.
const NO_VALUES: [Case; 6] = [
    (
        "sepref 1\nout flag\nproc main 0 1\n  r0 = const 2\n  ret r0\nend\n",
        Outcome::Tells(12, "! no value 1\n"),
    ),
    (
        "sepref 1\nout word\nout array\nout flag\nproc main 0 3\n  r0 = const 2\n  ret r1, r0, r0, r0, r0\nend\n",
        Outcome::Tells(12, "! no value 2\n"),
    ),
    (
        "sepref 1\nin xs array\nout array\nproc main 3 3\n  free r0\n  ret r0, r1, r2\nend\nwith xs = [7]\n",
        Outcome::Tells(12, "! no value 1\n"),
    ),
    (
        "sepref 1\nin xs array\nout array\nproc main 3 4\n  r3 = const 1\n  ret r0, r1, r3\nend\nwith xs = [7, 8]\n",
        Outcome::Tells(12, "! no value 1\n"),
    ),
    (
        "sepref 1\nin s bits 10\nout bits 9\nproc main 2 2\n  ret r0, r1\nend\nwith s = {9}\n",
        Outcome::Tells(12, "! no value 1\n"),
    ),
    (
        "sepref 1\nout flag\nout flag\nproc main 0 1\n  r0 = const 3\n  ret r0, r0\nend\n",
        Outcome::Tells(12, "! no value 1\n"),
    ),
];

#[test]
fn results_are_written_in_order(rt: HostRuntime) -> Result<(), Fail> {
    let count = answered(rt.alloc(), &RESULTS)?;
    assert_eq!(rt; count, RESULTS.len());
    Ok(())
}

#[test]
fn the_first_result_without_a_value_is_told(rt: HostRuntime) -> Result<(), Fail> {
    let count = answered(rt.alloc(), &NO_VALUES)?;
    assert_eq!(rt; count, NO_VALUES.len());
    Ok(())
}
