//! What is told along schedules.

use crate::outcome::{Case, answered};
use std::test::Fail;

/// The program whose two branches write to one word.
pub(crate) const RACE: &str =
    "sepref 1\nout word\nproc main 0 4\n  r0 = const 1\n  r1 = alloc r0\n  par r2 = w(r1) hand [] | r3 = w(r1) hand []\n  free r1\n  ret r2\nend\nproc w 1 2\n  r1 = const 0\n  store r0 r1 r1\n  ret r1\nend\n";

/// The program that gives the first element of a list.
pub(crate) const FIRST: &str =
    "sepref 1\nin xs array kept\nout word\nproc main 3 5\n  r3 = const 0\n  r4 = call array_get(r0, r1, r2, r3)\n  ret r4\nend\nproc array_get 4 6\n  r4 = add r1 r3\n  r5 = load r0 r4\n  ret r5\nend\n";

/// A program that gives its list, with a number put in front of it, and a truth value.
const PUT: &str =
    "sepref 1\nin xs array\nin n word\nout array\nout flag\nproc main 4 6\n  store r0 r1 r3\n  r5 = const 1\n  ret r0, r1, r2, r5\nend\n";

/// A program whose result is no truth value.
const TWO: &str =
    "sepref 1\nout word\nout flag\nproc main 0 1\n  r0 = const 2\n  ret r0, r0\nend\n";

/// A program that frees the block that it gives.
const GONE: &str =
    "sepref 1\nin xs array\nout array\nproc main 3 3\n  free r0\n  ret r0, r1, r2\nend\n";

/// A program that divides by 0.
const ZERO: &str =
    "sepref 1\nout word\nproc main 0 2\n  r0 = const 1\n  r1 = div r0 r1\n  ret r1\nend\n";

/// A program each of whose branches reads past its block, where the left one reads last.
const PAST: &str =
    "sepref 1\nout word\nproc main 0 4\n  r0 = const 1\n  r1 = alloc r0\n  par r2 = s(r1, r0) hand [] | r3 = v(r1, r0) hand []\n  ret r2\nend\nproc s 2 3\n  r2 = mov r1\n  r2 = load r0 r2\n  ret r2\nend\nproc v 2 3\n  r2 = load r0 r1\n  ret r2\nend\n";

/// Inputs, and what is told of them.
const ANSWERS: [Case; 26] = [
    (
        RACE,
        "at - 0\nat - 1\nat - 0\nat L 0\nat R 0\n",
        0,
        "race 5 L R\n",
    ),
    (
        RACE,
        "at - 0\nat - 1\nat - 0\nat R 0\nat L 0\n",
        0,
        "race 5 L R\n",
    ),
    (
        RACE,
        "at - 0\nat - 1\nat - 0\nat R 0\nat L 0\nat L 0\nat L 0\n",
        0,
        "race 5 L R\n",
    ),
    (
        RACE,
        "at - 0\nat - 0\nat - 0\nat L 0\nat R 0\n",
        18,
        "! step 2 name used\n",
    ),
    (
        RACE,
        "at L 0\nat - 1\nat - 0\nat L 0\nat R 0\n",
        18,
        "! step 1 no leaf\n",
    ),
    (
        RACE,
        "at - 0\nat - 1\nat - 0\nat - 0\n",
        18,
        "! step 4 no leaf\n",
    ),
    (RACE, "at - 0\nat - 1\nat - 0\nat L 0\n", 0, "open 4\n"),
    (
        RACE,
        "at - 0\nat - 1\nat - 0\nat L 0\nat L 0\n",
        0,
        "open 5\n",
    ),
    (
        RACE,
        "at - 0\nat - 1\nat - 0\nat L 0\nat L 0\nat L 0\nat R 0\nat R 0\nat R 0\nat - 0\nat - 0\nat - 0\n",
        0,
        "end 12\n= 0\n",
    ),
    (
        RACE,
        "at - 0\nat - 16777217\nat - 0\n",
        18,
        "! step 2 name used\n",
    ),
    (RACE, "at - 0\nat - 16777216\nat - 0\n", 0, "open 3\n"),
    (RACE, "", 0, "open 0\n"),
    (
        FIRST,
        "with xs = [7, 8]\nat - 0\nat - 0\nat - 0\nat - 0\nat - 0\nat - 0\n",
        0,
        "end 6\n= 7\n",
    ),
    (
        FIRST,
        "with xs = [7, 8]\nat - 0\nat - 0\nat - 0\nat - 0\nat - 0\n",
        0,
        "open 5\n",
    ),
    (
        FIRST,
        "with xs = [7, 8]\nat - 0\nat - 0\nat - 0\nat - 0\nat - 0\nat - 0\nat - 0\n",
        0,
        "end 6\n= 7\n",
    ),
    (FIRST, "with xs = [7, 8]\n", 0, "open 0\n"),
    (
        FIRST,
        "with xs = []\nat - 0\nat - 0\nat - 0\nat - 0\n",
        0,
        "stuck 3 - array_get 2 index\n",
    ),
    (
        PUT,
        "with n = 5\nwith xs = [7, 8]\nat - 0\nat - 0\nat - 0\n",
        0,
        "end 3\n= [5, 8]\n= true\n",
    ),
    (TWO, "at - 0\nat - 0\n", 12, "! no value 2\n"),
    (TWO, "at - 0\n", 0, "open 1\n"),
    (
        GONE,
        "with xs = [7]\nat - 0\nat - 0\n",
        12,
        "! no value 1\n",
    ),
    (
        ZERO,
        "at - 0\nat - 0\nat - 0\n",
        0,
        "stuck 1 - main 2 zero\n",
    ),
    (
        PAST,
        "at - 0\nat - 1\nat - 0\nat L 0\nat R 0\n",
        0,
        "stuck 3 R v 1 index\n",
    ),
    (PAST, "at - 0\nat - 1\nat L 0\n", 18, "! step 3 no leaf\n"),
    (
        "sepref 1\nout word\nproc main 0 1\n  r0 = call main()\n  ret r0\nend\n",
        "at - 0\nat - 0\nat - 0\n",
        0,
        "open 3\n",
    ),
    (
        "sepref 1\nproc main 0 2\n  r0 = const 16777216\n  r1 = alloc r0\n  ret\nend\n",
        "at - 0\nat - 1\nat - 0\n",
        0,
        "full 2\n",
    ),
];

#[test]
fn schedules_have_their_answers(rt: HostRuntime) -> Result<(), Fail> {
    let count = answered(rt.alloc(), &ANSWERS)?;
    assert_eq!(rt; count, ANSWERS.len());
    Ok(())
}

/// A program that forks without end.
const FORKS: &str =
    "sepref 1\nout word\nproc main 0 2\n  par r0 = main() hand [] | r1 = w() hand []\n  ret r0\nend\nproc w 0 1\n  ret r0\nend\n";

#[test]
fn a_limit_of_depth_is_told(rt: HostRuntime) -> Result<(), Fail> {
    let alloc = rt.alloc();
    let mut path = Vec::new(alloc);
    let mut input = Vec::from_slice(alloc, FORKS.as_bytes())?;
    input.extend_from_slice(b"at - 0\n")?;
    for _ in 0..64_u32 {
        path.push(b'L')?;
        input.extend_from_slice(b"at ")?;
        input.extend_from_slice(path.as_slice())?;
        input.extend_from_slice(b" 0\n")?;
    }
    let mut output = Vec::from_slice(alloc, b"! depth ")?;
    output.extend_from_slice(path.as_slice())?;
    output.push(b'\n')?;
    let told = crate::outcome::is_answered(
        alloc,
        input.as_slice(),
        (crate::outcome::NEVER, crate::outcome::NEVER),
        13,
        output.as_slice(),
    )?;
    assert!(rt; told);
    Ok(())
}
