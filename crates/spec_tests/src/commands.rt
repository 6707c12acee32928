//! What the commands write.

use crate::runs::{NEVER, answered, ended};
use crate::texts::{FIRST, FIRST_PROGRAM, ONE, ONE_PROGRAM};
use std::alloc::Global;
use std::test::Fail;

const SYNTHESES: [(&str, u8, &str); 10] = [
    (FIRST, 0, FIRST_PROGRAM),
    (ONE, 0, ONE_PROGRAM),
    ("spec one():nat return 1 end", 0, ONE_PROGRAM),
    (
        "# one\nspec one () : nat\r\n\treturn (1)\nend\n",
        0,
        ONE_PROGRAM,
    ),
    (
        "spec one () : nat\n  return 1\nend\nwith x = [1, 2]\n",
        0,
        ONE_PROGRAM,
    ),
    (
        "spec two (xs: list as array kept) : (nat, nat)\n  (a, b) <- par\n    x <- get xs 0\n    return x\n  and\n    y <- get xs 1\n    return y\n  end\n  return (a, b)\nend\n",
        40,
        "! not yet\n",
    ),
    (
        "spec halves (xs: list as array) : list as array\n  ys <- split xs at 1 left a\n    return a\n  right b\n    return b\n  end\n  return ys\nend\n",
        40,
        "! not yet\n",
    ),
    (
        "spec a () : nat\n  return 18446744073709551615\nend\n",
        0,
        "sepref 1\nout word\nproc main 0 1\n  r0 = const 18446744073709551615\n  ret r0\nend\n",
    ),
    (
        "spec first (xs: list as array kept) : nat\n  xs <- get xs 7\n  return xs\nend\n",
        0,
        "sepref 1\nin xs array kept\nout word\nproc main 3 5\n  r3 = const 7\n  r4 = call array_get(r0, r1, r2, r3)\n  ret r4\nend\nproc array_get 4 6\n  r4 = add r1 r3\n  r5 = load r0 r4\n  ret r5\nend\n",
    ),
    (
        "spec last (xs: list as array kept) : nat\n  x <- get xs 0\n  return 9\nend\n",
        0,
        "sepref 1\nin xs array kept\nout word\nproc main 3 6\n  r3 = const 0\n  r4 = call array_get(r0, r1, r2, r3)\n  r5 = const 9\n  ret r5\nend\nproc array_get 4 6\n  r4 = add r1 r3\n  r5 = load r0 r4\n  ret r5\nend\n",
    ),
];

const CHECKS: [(&str, u8, &str); 6] = [
    (FIRST, 0, FIRST),
    ("spec one():nat return 1 end", 0, ONE),
    (
        "# one\nspec one () : nat\r\n\treturn (1)\nend\nwith x = 1\n",
        0,
        ONE,
    ),
    (
        "spec one () : nat\n  return 1+1\nend\n",
        0,
        "spec one () : nat\n  return 1 + 1\nend\n",
    ),
    ("spec one () nat", 2, "! syntax 1 13\n"),
    (
        "spec a () : nat\n  return true\nend\n",
        3,
        "! type 2 10 mismatch nat bool\n",
    ),
];

// What is no specification, at its place.
const PLACES: [(&str, u8, &str); 6] = [
    ("", 2, "! syntax 1 1\n"),
    (
        "spec one () : nat\n  return end\nend\n",
        2,
        "! syntax 2 10\n",
    ),
    (
        "spec one () : nat\n  return 1\nend\nend\n",
        2,
        "! syntax 4 1\n",
    ),
    (
        "spec first (xs: list as array kept) : nat\n  x <- get xs 0\n",
        2,
        "! syntax 3 1\n",
    ),
    (
        "spec a () : nat\n  return 18446744073709551616\nend\n",
        2,
        "! syntax 2 10\n",
    ),
    (
        "spec a () : nat\n  return 1 < 2 < 3\nend\n",
        2,
        "! syntax 2 16\n",
    ),
];

#[test]
fn the_form_is_served_and_nothing_else(rt: HostRuntime) -> Result<(), Fail> {
    let count = answered(rt.alloc(), "synth", &SYNTHESES)?;
    assert_eq!(rt; count, SYNTHESES.len());
    Ok(())
}

#[test]
fn what_is_typed_is_checked_before_it_is_served(rt: HostRuntime) -> Result<(), Fail> {
    let count = answered(rt.alloc(), "check", &CHECKS)?;
    assert_eq!(rt; count, CHECKS.len());
    Ok(())
}

#[test]
fn what_is_no_specification_is_told_at_its_place(rt: HostRuntime) -> Result<(), Fail> {
    let count = answered(rt.alloc(), "synth", &PLACES)?;
    assert_eq!(rt; count, PLACES.len());
    Ok(())
}

// What `synth` answers to a text in which a piece stands so often.
fn repeated(
    alloc: Global,
    before: &str,
    piece: &str,
    times: usize,
    behind: &str,
    output: &str,
) -> Result<Option<u8>, Fail> {
    let mut text = String::from_str(alloc, before)?;
    for _ in 0..times {
        text.push_str(piece)?;
    }
    text.push_str(behind)?;
    ended(
        alloc,
        &["synth"],
        text.as_bytes(),
        (NEVER, NEVER),
        output.as_bytes(),
    )
}

#[test]
fn names_and_blocks_go_to_their_limits(rt: HostRuntime) -> Result<(), Fail> {
    let one = " () : nat return 1 end";
    let named = repeated(rt.alloc(), "spec ", "n", 64, one, ONE_PROGRAM)?;
    assert!(rt; named == Some(0));
    let longer = repeated(rt.alloc(), "spec ", "n", 65, one, "! syntax 1 6\n")?;
    assert!(rt; longer == Some(2));
    let deep = repeated(
        rt.alloc(),
        "spec a () : nat return ",
        "(",
        64,
        "",
        "! too deep 1 87\n",
    )?;
    assert!(rt; deep == Some(2));
    Ok(())
}

#[test]
fn the_longest_input_has_a_mebibyte(rt: HostRuntime) -> Result<(), Fail> {
    let blanks = 1_048_576 - ONE.len();
    let longest = repeated(rt.alloc(), ONE, " ", blanks, "", ONE_PROGRAM)?;
    assert!(rt; longest == Some(0));
    let longer = repeated(rt.alloc(), ONE, " ", blanks, " ", "! too long\n")?;
    assert!(rt; longer == Some(11));
    Ok(())
}

// The status of words with the first specification as input, where this was written.
fn words_status(alloc: Global, words: &[&str], output: &str) -> Result<Option<u8>, Fail> {
    ended(
        alloc,
        words,
        FIRST.as_bytes(),
        (NEVER, NEVER),
        output.as_bytes(),
    )
}

#[test]
fn words_that_are_no_command_line_are_told(rt: HostRuntime) -> Result<(), Fail> {
    for words in [
        [].as_slice(),
        &["synth", "synth"],
        &["Synth"],
        &["bulk"],
        &[""],
    ] {
        let status = words_status(rt.alloc(), words, "! usage\n")?;
        assert!(rt; status == Some(1));
    }
    for (word, status, output) in [
        ("check", 0, FIRST),
        ("eval", 5, "! input xs missing\n"),
        ("run", 40, "! not yet\n"),
        ("exec", 9, "! not a program 1\n"),
    ] {
        let found = words_status(rt.alloc(), &[word], output)?;
        assert!(rt; found == Some(status), "{word}");
    }
    Ok(())
}
