//! Ends of runs.

use crate::outcome::{Case, Outcome, answered};
use std::test::Fail;

/// Programs that end badly, and the line that tells where and why; and others beside them.
const ENDS: [Case; 24] = [
    (
        "sepref 1\nin xs array kept\nout word\nproc main 3 5\n  r3 = const 2\n  r4 = call array_get(r0, r1, r2, r3)\n  ret r4\nend\nproc array_get 4 6\n  r4 = add r1 r3\n  r5 = load r0 r4\n  ret r5\nend\nwith xs = [7, 8]\n",
        Outcome::Tells(6, "! stuck - array_get 2 index\n"),
    ),
    (
        "sepref 1\nin xs array kept\nout word\nproc main 3 5\n  r3 = const 1\n  r4 = call array_get(r0, r1, r2, r3)\n  ret r4\nend\nproc array_get 4 6\n  r4 = add r1 r3\n  r5 = load r0 r4\n  ret r5\nend\nwith xs = [7, 8]\n",
        Outcome::Shows("= 8\n"),
    ),
    (
        "sepref 1\nin xs array\nout array\nproc main 3 3\n  store r0 r2 r2\n  ret r0, r1, r2\nend\nwith xs = [7]\n",
        Outcome::Tells(6, "! stuck - main 1 index\n"),
    ),
    (
        "sepref 1\nout word\nproc main 0 2\n  r0 = const 1\n  r1 = div r0 r1\n  ret r1\nend\n",
        Outcome::Tells(6, "! stuck - main 2 zero\n"),
    ),
    (
        "sepref 1\nout word\nproc main 0 2\n  r0 = const 1\n  r1 = mod r0 r1\n  ret r1\nend\n",
        Outcome::Tells(6, "! stuck - main 2 zero\n"),
    ),
    (
        "sepref 1\nout word\nproc main 0 2\n  r0 = const 64\n  r1 = shl r0 r0\n  ret r1\nend\n",
        Outcome::Tells(6, "! stuck - main 2 shift\n"),
    ),
    (
        "sepref 1\nout word\nproc main 0 2\n  r0 = const 63\n  r1 = shr r0 r0\n  ret r1\nend\n",
        Outcome::Shows("= 0\n"),
    ),
    (
        "sepref 1\nout word\nproc main 0 3\n  while\n    r0 = const 1\n    r1 = div r0 r1\n  do r1\n  end\n  ret r1\nend\n",
        Outcome::Tells(6, "! stuck - main 3 zero\n"),
    ),
    (
        "sepref 1\nout word\nproc main 0 3\n  r0 = const 1\n  while\n  do r0\n    r1 = div r0 r1\n  end\n  ret r1\nend\n",
        Outcome::Tells(6, "! stuck - main 4 zero\n"),
    ),
    (
        "sepref 1\nout word\nproc main 0 2\n  par r0 = w() hand [] | r1 = z() hand []\n  ret r0\nend\nproc w 0 1\n  ret r0\nend\nproc z 0 2\n  r0 = div r0 r1\n  ret r0\nend\n",
        Outcome::Tells(6, "! stuck R z 1 zero\n"),
    ),
    (
        "sepref 1\nout word\nproc main 0 2\n  par r0 = s() hand [] | r1 = z() hand []\n  ret r0\nend\nproc s 0 2\n  r1 = const 70\n  r0 = shl r0 r1\n  ret r0\nend\nproc z 0 2\n  r0 = div r0 r1\n  ret r0\nend\n",
        Outcome::Tells(6, "! stuck L s 2 shift\n"),
    ),
    (
        "sepref 1\nout word\nproc main 0 2\n  r0 = const 3\n  r1 = load r0 r1\n  ret r1\nend\n",
        Outcome::Tells(10, "! unowned - main 2 3 0\n"),
    ),
    (
        "sepref 1\nin xs array\nout word\nproc main 3 4\n  free r0\n  r3 = load r0 r1\n  ret r3\nend\nwith xs = [7]\n",
        Outcome::Tells(10, "! unowned - main 2 1 0\n"),
    ),
    (
        "sepref 1\nin xs array\nproc main 3 3\n  free r0\n  free r0\n  ret\nend\nwith xs = [7]\n",
        Outcome::Tells(10, "! unowned - main 2 1 0\n"),
    ),
    (
        "sepref 1\nproc main 0 2\n  r0 = const 4\n  r1 = const 2\n  store r0 r1 r1\n  ret\nend\n",
        Outcome::Tells(10, "! unowned - main 3 4 2\n"),
    ),
    (
        "sepref 1\nout word\nproc main 0 4\n  r0 = const 1\n  r1 = alloc r0\n  par r2 = w(r1) hand [] | r3 = w(r1) hand []\n  free r1\n  ret r2\nend\nproc w 1 2\n  r1 = const 0\n  store r0 r1 r1\n  ret r1\nend\n",
        Outcome::Tells(10, "! unowned L w 2 1 0\n"),
    ),
    (
        "sepref 2\nout word\nproc main 0 4\n  r0 = const 1\n  r1 = alloc r0\n  par r2 = w(r1) hand [] lend [r1] | r3 = v(r1) hand [] lend [r1]\n  free r1\n  ret r2\nend\nproc v 1 3\n  r1 = const 0\n  r2 = load r0 r1\n  ret r2\nend\nproc w 1 3\n  r1 = const 0\n  store r0 r1 r1\n  ret r1\nend\n",
        Outcome::Tells(10, "! unowned L w 2 1 0\n"),
    ),
    (
        "sepref 1\nout word\nproc main 0 4\n  r0 = const 1\n  r1 = alloc r0\n  par r2 = v(r1) hand [r1] | r3 = v(r1) hand [r1]\n  free r1\n  ret r2\nend\nproc v 1 2\n  ret r1\nend\n",
        Outcome::Tells(10, "! unowned - main 3 1 0\n"),
    ),
    (
        "sepref 1\nin xs array\nout word\nproc main 3 5\n  r3 = const 1\n  par r4 = v() hand [r0 from r3 for r2] | n() hand []\n  ret r4\nend\nproc v 0 1\n  ret r0\nend\nproc n 0 0\n  ret\nend\nwith xs = [1, 2]\n",
        Outcome::Tells(10, "! unowned - main 2 1 1\n"),
    ),
    (
        "sepref 1\nout word\nproc main 0 2\n  r0 = const 16777216\n  r1 = alloc r0\n  ret r1\nend\n",
        Outcome::Tells(8, "! heap 0 16777216\n"),
    ),
    (
        "sepref 1\nout word\nproc main 0 3\n  r0 = const 7\n  r1 = alloc r0\n  r2 = const 16777208\n  r0 = alloc r2\n  ret r0\nend\n",
        Outcome::Tells(8, "! heap 8 16777208\n"),
    ),
    (
        "sepref 1\nin xs array kept\nout word\nproc main 3 4\n  r3 = const 18446744073709551615\n  r3 = alloc r3\n  ret r3\nend\nwith xs = [7, 8]\n",
        Outcome::Tells(8, "! heap 3 18446744073709551615\n"),
    ),
    (
        "sepref 1\nout word\nproc main 0 1\n  r0 = call main()\n  ret r0\nend\n",
        Outcome::Tells(13, "! depth -\n"),
    ),
    (
        "sepref 1\nout word\nproc main 0 2\n  par r0 = main() hand [] | r1 = w() hand []\n  ret r0\nend\nproc w 0 1\n  ret r0\nend\n",
        Outcome::Tells(
            13,
            "! depth LLLLLLLLLLLLLLLLLLLLLLLLLLLLLLLLLLLLLLLLLLLLLLLLLLLLLLLLLLLLLLLL\n",
        ),
    ),
];

#[test]
fn bad_ends_are_told_by_their_place(rt: HostRuntime) -> Result<(), Fail> {
    let count = answered(rt.alloc(), &ENDS)?;
    assert_eq!(rt; count, ENDS.len());
    Ok(())
}
