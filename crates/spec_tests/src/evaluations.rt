//! What specifications give on values, and values that are not those of the parameters.

use crate::runs::answered;
use nres_eval::{EvalEnd, eval};
use nres_syntax::read_spec;
use std::alloc::Global;
use std::test::Fail;

const EVALUATIONS: [(&str, u8, &str); 10] = [
    (
        "spec halves (xs: list as array, k: nat) : (list as array, nat, nat)\n  (ys, a, b) <- split xs at k left l\n    n <- len l\n    return (l, n)\n  right r\n    m <- len r\n    return (r, m)\n  end\n  return (ys, a, b)\nend\nwith xs = [4, 5, 6]\nwith k = 1\n",
        0,
        "= [4, 5, 6]\n= 1\n= 2\n",
    ),
    (
        "spec halves (xs: list as array, k: nat) : (list as array, nat, nat)\n  (ys, a, b) <- split xs at k left l\n    n <- len l\n    return (l, n)\n  right r\n    m <- len r\n    return (r, m)\n  end\n  return (ys, a, b)\nend\nwith k = 4\nwith xs = [4, 5, 6]\n",
        14,
        "! fails 2\n",
    ),
    (
        "spec choice (s: set as hset) : (list as vec, nat, nat)\n  z <- either\n    a <- zeros 2 as vec\n    return a\n  or\n    b <- nil as vec\n    return b\n  end\n  x <- any 3 9\n  y <- pick s\n  return (z, x, y)\nend\nwith s = {7, 5, 7}\n",
        0,
        "= [0, 0]\n= 3\n= 5\n",
    ),
    (
        "spec a () : (nat, nat)\n  x <- 1\n  y <- if true then\n    x <- x + 2\n    return x\n  else\n    return 0\n  end\n  return (x, y)\nend\n",
        0,
        "= 1\n= 3\n",
    ),
    (
        "spec v (n: nat, b: bool, l: list as vec, s: set as bits 10, m: map as hmap, h: bag as heap, e: set as hset, o: map as amap 9) : (nat, bool, list as vec, set as bits 10, map as hmap, bag as heap, set as hset, map as amap 9)\n  return (n, b, l, s, m, h, e, o)\nend\nwith n = 18446744073709551615\nwith b = false\nwith l = [10, 0, 10]\nwith s = {12, 3, 12}\nwith m = {20: 5, 7: 0}\nwith h = bag [4, 1, 4]\nwith e = {}\nwith o = {:}\n",
        0,
        "= 18446744073709551615\n= false\n= [10, 0, 10]\n= {3, 12}\n= {7: 0, 20: 5}\n= bag [1, 4, 4]\n= {}\n= {:}\n",
    ),
    (
        "spec d () : nat\n  x <- call g(0)\n  return x\nend\nfun g (n: nat) : nat\n  y <- call g(n)\n  return y\nend\n",
        15,
        "! turns 6\n",
    ),
    (
        "spec halves (xs: list as array, k: nat) : (list as array, nat, nat)\n  (ys, a, b) <- split xs at k left l\n    n <- len l\n    return (l, n)\n  right r\n    m <- len r\n    return (r, m)\n  end\n  return (ys, a, b)\nend\nwith xs = [4]\nwith n = 1\n",
        5,
        "! input n unknown\n",
    ),
    (
        "spec halves (xs: list as array, k: nat) : (list as array, nat, nat)\n  (ys, a, b) <- split xs at k left l\n    n <- len l\n    return (l, n)\n  right r\n    m <- len r\n    return (r, m)\n  end\n  return (ys, a, b)\nend\nwith k = 1\nwith k = true\n",
        5,
        "! input k twice\n",
    ),
    (
        "spec halves (xs: list as array, k: nat) : (list as array, nat, nat)\n  (ys, a, b) <- split xs at k left l\n    n <- len l\n    return (l, n)\n  right r\n    m <- len r\n    return (r, m)\n  end\n  return (ys, a, b)\nend\nwith k = true\n",
        5,
        "! input k type\n",
    ),
    (
        "spec halves (xs: list as array, k: nat) : (list as array, nat, nat)\n  (ys, a, b) <- split xs at k left l\n    n <- len l\n    return (l, n)\n  right r\n    m <- len r\n    return (r, m)\n  end\n  return (ys, a, b)\nend\nwith k = 1\n",
        5,
        "! input xs missing\n",
    ),
];

#[test]
fn the_first_path_is_shown_or_why_there_is_none(rt: HostRuntime) -> Result<(), Fail> {
    let count = answered(rt.alloc(), "eval", &EVALUATIONS)?;
    assert_eq!(rt; count, EVALUATIONS.len());
    Ok(())
}

const SPIN: &str =
    "spec spin () : nat\n  i <- while i from 0 if true do\n    return i\n  end\n  return i\nend\n";

// The line of the loop that would begin one turn too many, where so many are allowed.
fn late_line(alloc: Global, text: &str, turns: u64) -> Result<Option<u64>, Fail> {
    let found = read_spec(alloc, text.as_bytes())?;
    match eval(alloc, &found.0, &[], turns) {
        Err(EvalEnd::OutOfTurns(line)) => Ok(Some(line)),
        _ => Ok(None),
    }
}

#[test]
fn a_loop_has_no_more_turns_than_it_may(rt: HostRuntime) -> Result<(), Fail> {
    let line = late_line(rt.alloc(), SPIN, 10)?;
    assert!(rt; line == Some(2));
    Ok(())
}
