//! Inputs that are no replay.

use crate::answers::{FIRST, RACE};
use crate::outcome::{Case, answered};
use std::test::Fail;

/// A program with a set below a bound.
const SET: &str = "sepref 1\nin s bits 10\nin n word\nproc main 3 3\n  ret\nend\n";

/// Inputs, and why they are refused: of several faults the one of the first test is told.
const REFUSALS: [Case; 28] = [
    (
        RACE,
        "at - 0\nat - 1\nat - 0\nat L 0\nat X 0\n",
        17,
        "! not a schedule 19\n",
    ),
    (RACE, "at - 0\nat - 1", 17, "! not a schedule 16\n"),
    (RACE, "at - 00\n", 17, "! not a schedule 15\n"),
    (RACE, "at  - 0\n", 17, "! not a schedule 15\n"),
    (RACE, "at - 0 \n", 17, "! not a schedule 15\n"),
    (RACE, "at - -1\n", 17, "! not a schedule 15\n"),
    (RACE, "at -L 0\n", 17, "! not a schedule 15\n"),
    (RACE, "at  0\n", 17, "! not a schedule 15\n"),
    (
        RACE,
        "at - 18446744073709551616\n",
        17,
        "! not a schedule 15\n",
    ),
    (RACE, "at - 0\n\nat - 1\n", 17, "! not a schedule 16\n"),
    (RACE, "at - 0\nwith xs = [1]\n", 17, "! not a schedule 16\n"),
    (RACE, "at - 0\nAt - 1\n", 17, "! not a schedule 16\n"),
    (RACE, "at\n", 9, "! not a program 15\n"),
    (RACE, "go - 0\nat - 0\n", 9, "! not a program 15\n"),
    ("", "", 9, "! not a program 1\n"),
    ("", "at - 0\n", 9, "! not a program 1\n"),
    (
        "sepref 1\nout word\n",
        "with xs 7\nat X\n",
        9,
        "! not a program 3\n",
    ),
    (FIRST, "with xs 7\nat - 0\n", 2, "! syntax 14 9\n"),
    (FIRST, "with xs 7\nat X\n", 2, "! syntax 14 9\n"),
    (FIRST, "with xs = [7\nat - 0\n", 2, "! syntax 15 1\n"),
    (FIRST, "with ys = [7]\nat X\n", 17, "! not a schedule 15\n"),
    (FIRST, "with ys = [7]\nat - 0\n", 5, "! input ys unknown\n"),
    (
        FIRST,
        "with xs = [7]\nwith xs = [8]\nat - 0\n",
        5,
        "! input xs twice\n",
    ),
    (FIRST, "with xs = 7\nat - 0\n", 5, "! input xs type\n"),
    (FIRST, "at - 0\n", 5, "! input xs missing\n"),
    (
        SET,
        "with s = {3, 12, 11}\nwith n = 0\nat - 0\n",
        5,
        "! input s fit 11\n",
    ),
    (SET, "with s = {3}\nat - 0\n", 5, "! input n missing\n"),
    (SET, "with s = {3}\nwith n = 0\nat - 0\n", 0, "end 1\n"),
];

#[test]
fn what_is_no_replay_is_told(rt: HostRuntime) -> Result<(), Fail> {
    let count = answered(rt.alloc(), &REFUSALS)?;
    assert_eq!(rt; count, REFUSALS.len());
    Ok(())
}
