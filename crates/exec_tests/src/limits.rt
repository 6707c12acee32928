//! Heaps and budgets of steps.

ghost use Rattle.std.specs.Prelude.{◌≡◌};

use crate::outcome::Outcome;
use plain_store::memory::PlainStore;
use sepref_runs::text_told;
use sepref_top::{Command, Line};
use std::alloc::Global;
use std::test::Fail;

/// An input of `exec`, the words of the heap, the steps of a path, and what it is answered.
type Limited = (&'static str, u64, u64, Outcome);

/// Programs that meet a limit, and others that just do not.
const LIMITED: [Limited; 14] = [
    (
        "sepref 1\nin xs array kept\nout word\nproc main 3 5\n  r3 = const 0\n  r4 = call array_get(r0, r1, r2, r3)\n  ret r4\nend\nproc array_get 4 6\n  r4 = add r1 r3\n  r5 = load r0 r4\n  ret r5\nend\nwith xs = [7, 8]\n",
        16,
        6,
        Outcome::Shows("= 7\n"),
    ),
    (
        "sepref 1\nin xs array kept\nout word\nproc main 3 5\n  r3 = const 0\n  r4 = call array_get(r0, r1, r2, r3)\n  ret r4\nend\nproc array_get 4 6\n  r4 = add r1 r3\n  r5 = load r0 r4\n  ret r5\nend\nwith xs = [7, 8]\n",
        16,
        5,
        Outcome::Tells(7, "! steps -\n"),
    ),
    (
        "sepref 1\nin xs array kept\nout word\nproc main 3 5\n  r3 = const 0\n  r4 = call array_get(r0, r1, r2, r3)\n  ret r4\nend\nproc array_get 4 6\n  r4 = add r1 r3\n  r5 = load r0 r4\n  ret r5\nend\nwith xs = [7, 8]\n",
        3,
        6,
        Outcome::Shows("= 7\n"),
    ),
    (
        "sepref 1\nin xs array kept\nout word\nproc main 3 5\n  r3 = const 0\n  r4 = call array_get(r0, r1, r2, r3)\n  ret r4\nend\nproc array_get 4 6\n  r4 = add r1 r3\n  r5 = load r0 r4\n  ret r5\nend\nwith xs = [7, 8]\n",
        2,
        6,
        Outcome::Tells(8, "! heap 0 2\n"),
    ),
    (
        "sepref 1\nout word\nproc main 0 2\n  par r0 = w() hand [] | r1 = w() hand []\n  ret r0\nend\nproc w 0 1\n  ret r0\nend\n",
        1,
        4,
        Outcome::Shows("= 0\n"),
    ),
    (
        "sepref 1\nout word\nproc main 0 2\n  par r0 = w() hand [] | r1 = w() hand []\n  ret r0\nend\nproc w 0 1\n  ret r0\nend\n",
        1,
        3,
        Outcome::Tells(7, "! steps -\n"),
    ),
    (
        "sepref 1\nout word\nproc main 0 2\n  par r0 = w() hand [] | r1 = w() hand []\n  ret r0\nend\nproc w 0 1\n  ret r0\nend\n",
        1,
        2,
        Outcome::Tells(7, "! steps -\n"),
    ),
    (
        "sepref 1\nout word\nproc main 0 1\n  r0 = call main()\n  ret r0\nend\n",
        1,
        9999,
        Outcome::Tells(7, "! steps -\n"),
    ),
    (
        "sepref 1\nout word\nproc main 0 1\n  r0 = const 1\n  while\n  do r0\n  end\n  ret r0\nend\n",
        1,
        1000,
        Outcome::Tells(7, "! steps -\n"),
    ),
    (
        "sepref 1\nout word\nproc main 0 2\n  par r0 = w() hand [] | r1 = w() hand []\n  ret r0\nend\nproc w 0 1\n  r0 = const 1\n  while\n  do r0\n  end\n  ret r0\nend\n",
        1,
        100,
        Outcome::Tells(7, "! steps L\n"),
    ),
    (
        "sepref 1\nin a array\nin b array\nin c array\nout word\nproc main 9 9\n  ret r0\nend\nwith a = [1]\nwith b = [2, 3]\nwith c = [4, 5, 6]\n",
        8,
        9,
        Outcome::Tells(8, "! heap 5 3\n"),
    ),
    (
        "sepref 1\nin a array\nin b array\nin c array\nout word\nproc main 9 9\n  ret r0\nend\nwith a = [1]\nwith b = [2, 3]\nwith c = [4, 5, 6]\n",
        9,
        9,
        Outcome::Shows("= 1\n"),
    ),
    (
        "sepref 1\nout word\nproc main 0 2\n  r0 = const 1\n  r1 = alloc r0\n  free r1\n  r1 = alloc r0\n  ret r1\nend\n",
        3,
        9,
        Outcome::Tells(8, "! heap 2 1\n"),
    ),
    (
        "sepref 1\nout word\nproc main 0 2\n  r0 = const 1\n  r1 = alloc r0\n  free r1\n  r1 = alloc r0\n  ret r1\nend\n",
        4,
        9,
        Outcome::Shows("= 3\n"),
    ),
];

/// A command line of `exec` with this heap and these steps.
fn line(heap: u64, steps: u64) -> Line
    ensures { result.steps ≡ steps }
{
    Line {
        command: Command::Exec,
        number: 0,
        heap,
        steps,
        workers: 1,
        turns: 1,
        listing: false,
        proof: false,
    }
}

/// Whether an input is answered so, with this heap and these steps.
fn is_told(alloc: Global, case: Limited) -> Result<bool, Fail> {
    let (text, heap, steps, outcome) = case;
    if text.len() > 1_048_576 || steps > 1_000_000 {
        return Ok(false);
    }
    let told = text_told::<PlainStore>(alloc, line(heap, steps), text.as_bytes())?;
    Ok(told.status.code() == outcome.status() && told.bytes() == outcome.output().as_bytes())
}

#[test]
fn limits_are_met_exactly(rt: HostRuntime) -> Result<(), Fail> {
    for (at, case) in LIMITED.iter().enumerate() {
        let told = is_told(rt.alloc(), *case)?;
        assert!(rt; told, "the case {at}");
    }
    Ok(())
}
