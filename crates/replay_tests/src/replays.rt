//! Schedules that are followed.

use replay::{NoSchedule, read_schedule, replay};
use replay_lines::{cut, push_end, push_no_schedule};
use sqlite_items::Items;
use std::alloc::{AllocError, Global};
use std::test::Fail;
use target_code::Program;
use target_meaning::State;
use target_text::read_program;

/// The program of a text. A refusal is no want of memory, but ends a test like it.
fn program(alloc: Global, text: &[u8]) -> Result<Program, AllocError> {
    read_program(alloc, text).map_err(|_| AllocError)
}

/// The program whose two branches write to one word, and the first lines of a schedule.
const RACE: &[u8] =
    b"sepref 1\nout word\nproc main 0 4\n  r0 = const 1\n  r1 = alloc r0\n  par r2 = w(r1) hand [] | r3 = w(r1) hand []\n  free r1\n  ret r2\nend\nproc w 1 2\n  r1 = const 0\n  store r0 r1 r1\n  ret r1\nend\n";

/// Schedules of this program, with the capacity and the answer.
const RACES: [(&[u8], u64, &[u8]); 12] = [
    (
        b"at - 0\nat - 1\nat - 0\nat L 0\nat R 0\n",
        16,
        b"race 5 L R\n",
    ),
    (
        b"at - 0\nat - 1\nat - 0\nat R 0\nat L 0\nat L 0\nat X 0\n",
        16,
        b"! not a schedule 21\n",
    ),
    (
        b"at - 0\nat - 1\nat - 0\nat R 0\nat L 0\nat L 0\nat L 0\n",
        16,
        b"race 5 L R\n",
    ),
    (b"at - 0\nat - 1\nat - 0\nat L 0\nat L 0\n", 16, b"open 5\n"),
    (
        b"at - 0\nat - 0\nat - 0\nat L 0\nat R 0\n",
        16,
        b"! step 2 name used\n",
    ),
    (
        b"at L 0\nat - 1\nat - 0\nat L 0\nat R 0\n",
        16,
        b"! step 1 no leaf\n",
    ),
    (b"at - 0\nat - 1\nat - 0\nat L 0\nat R 0\n", 1, b"full 2\n"),
    (
        b"at - 0\nat - 1\nat - 0\nat L 0\nat X 0\n",
        16,
        b"! not a schedule 19\n",
    ),
    (b"at - 0\nat - 1", 16, b"! not a schedule 16\n"),
    (b"at - 00\n", 16, b"! not a schedule 15\n"),
    (b"at - 18446744073709551616\n", 16, b"! not a schedule 15\n"),
    (b"", 16, b"open 0\n"),
];

/// The line that a schedule, which begins in this line of an input, gives from a state of a program.
fn answer(
    alloc: Global,
    program: &Program,
    state: &mut State,
    schedule: &[u8],
    line: u32,
) -> Result<Vec<u8>, AllocError> {
    let mut out = Vec::new(alloc);
    match read_schedule(alloc, schedule, u64::from(line)) {
        Ok(steps) => {
            let end = replay(alloc, program, state, steps.as_slice())?;
            push_end(&mut out, &end)?;
        }
        Err(NoSchedule::Line(line)) => push_no_schedule(&mut out, line)?,
        Err(NoSchedule::Memory) => return Err(AllocError),
    }
    Ok(out)
}

/// Whether a schedule of the program whose branches race has this answer.
fn races(alloc: Global, schedule: &[u8], room: u64, line: &[u8]) -> Result<bool, AllocError> {
    let program = program(alloc, RACE)?;
    let mut state = State::new(alloc, &program, &[], &[], room)?;
    let told = answer(alloc, &program, &mut state, schedule, 15)?;
    Ok(told.as_slice() == line)
}

#[test]
fn schedules_have_their_answers(rt: HostRuntime) -> Result<(), Fail> {
    for (schedule, room, line) in RACES {
        assert!(rt; races(rt.alloc(), schedule, room, line)?);
    }
    Ok(())
}

/// An input: the program that reads the first element of an array, a value, and six steps.
const READING: &[u8] =
    b"sepref 1\nin xs array kept\nout word\nproc main 3 5\n  r3 = const 0\n  r4 = call array_get(r0, r1, r2, r3)\n  ret r4\nend\nproc array_get 4 6\n  r4 = add r1 r3\n  r5 = load r0 r4\n  ret r5\nend\nwith xs = [7, 8]\nat - 0\nat - 0\nat - 0\nat - 0\nat - 0\nat - 0\n";

/// Whether the parts of the input are there, and its schedule ends the root with 7.
fn reads_seven(alloc: Global) -> Result<bool, AllocError> {
    let parts = cut(READING);
    let program = program(alloc, parts.program)?;
    let block = [(1, Items::from_slice(alloc, &[7, 8])?)];
    let mut state = State::new(alloc, &program, &[1, 0, 2], &block, 16)?;
    let told = answer(alloc, &program, &mut state, parts.schedule, 15)?;
    let ended = told.as_slice() == b"end 6\n".as_slice() && state.result() == Some(&[7][..]);
    let cut = parts.values == b"with xs = [7, 8]\n".as_slice() && parts.values_line == 14;
    Ok(ended && cut && parts.schedule_line == 15)
}

#[test]
fn an_input_is_cut_and_followed_to_its_end(rt: HostRuntime) -> Result<(), Fail> {
    assert!(rt; reads_seven(rt.alloc())?);
    Ok(())
}

/// A program that forks into 64 leaves, each of which reads and writes a word of its own without end.
const LEAVES: &[u8] =
    b"sepref 1\nproc main 0 4\n  r0 = const 64\n  r1 = alloc r0\n  r2 = const 0\n  r3 = const 1\n  par f5(r1, r2) hand [] | f5(r1, r3) hand []\n  ret\nend\nproc f5 2 4\n  r2 = add r1 r1\n  r3 = const 1\n  r3 = add r2 r3\n  par f4(r0, r2) hand [] | f4(r0, r3) hand []\n  ret\nend\nproc f4 2 4\n  r2 = add r1 r1\n  r3 = const 1\n  r3 = add r2 r3\n  par f3(r0, r2) hand [] | f3(r0, r3) hand []\n  ret\nend\nproc f3 2 4\n  r2 = add r1 r1\n  r3 = const 1\n  r3 = add r2 r3\n  par f2(r0, r2) hand [] | f2(r0, r3) hand []\n  ret\nend\nproc f2 2 4\n  r2 = add r1 r1\n  r3 = const 1\n  r3 = add r2 r3\n  par f1(r0, r2) hand [] | f1(r0, r3) hand []\n  ret\nend\nproc f1 2 4\n  r2 = add r1 r1\n  r3 = const 1\n  r3 = add r2 r3\n  par f0(r0, r2) hand [] | f0(r0, r3) hand []\n  ret\nend\nproc f0 2 4\n  while\n    r2 = const 1\n  do r2\n    r3 = load r0 r1\n    store r0 r1 r3\n  end\n  ret\nend\n";

/// The paths of the two children of each.
fn deeper(alloc: Global, paths: &[Vec<u8>]) -> Result<Vec<Vec<u8>>, AllocError> {
    let mut below = Vec::new(alloc);
    for path in paths {
        for side in [b'L', b'R'] {
            let mut child = Vec::from_slice(alloc, path.as_slice())?;
            child.push(side)?;
            below.push(child)?;
        }
    }
    Ok(below)
}

/// Writes the line of a step at each path.
fn write_steps(text: &mut Vec<u8>, paths: &[Vec<u8>]) -> Result<(), AllocError> {
    for path in paths {
        text.extend_from_slice(b"at ")?;
        text.extend_from_slice(path.as_slice())?;
        text.extend_from_slice(b" 0\n")?;
    }
    Ok(())
}

/// Writes a schedule of 20,000 steps of the program: it forks, and then each leaf steps in turn.
fn write_schedule(alloc: Global, text: &mut Vec<u8>) -> Result<(), AllocError> {
    for _ in 0..5_u32 {
        text.extend_from_slice(b"at - 1\n")?;
    }
    let mut paths = vec![in alloc;
        Vec::from_slice(alloc, b"L")?,
        Vec::from_slice(alloc, b"R")?,
    ]?;
    for _ in 0..5_u32 {
        for _ in 0..4_u32 {
            write_steps(text, paths.as_slice())?;
        }
        paths = deeper(alloc, paths.as_slice())?;
    }
    for _ in 0..308_u32 {
        write_steps(text, paths.as_slice())?;
    }
    for _ in 0..35_u32 {
        text.extend_from_slice(b"at RRRRRR 0\n")?;
    }
    Ok(())
}

/// The line that the long schedule gives, with a line more or without.
fn long_answer(alloc: Global, more: &[u8]) -> Result<Vec<u8>, AllocError> {
    let program = program(alloc, LEAVES)?;
    let mut schedule = Vec::new(alloc);
    write_schedule(alloc, &mut schedule)?;
    schedule.extend_from_slice(more)?;
    let mut state = State::new(alloc, &program, &[], &[], 65)?;
    answer(alloc, &program, &mut state, schedule.as_slice(), 1)
}

#[test]
fn a_long_schedule_is_followed_to_its_end(rt: HostRuntime) -> Result<(), Fail> {
    assert!(rt; long_answer(rt.alloc(), b"")?.as_slice() == b"open 20000\n".as_slice());
    Ok(())
}

#[test]
fn a_line_more_is_refused(rt: HostRuntime) -> Result<(), Fail> {
    let line = long_answer(rt.alloc(), b"at - 0\n")?;
    assert!(rt; line.as_slice() == b"! not a schedule 20001\n".as_slice());
    Ok(())
}
