//! What specifications without branches give.

use crate::outcome::{Case, ran};
use std::test::Fail;

/// Numbers, and choices, of which the first side that passes is taken.
const NUMBERS: [Case; 4] = [
    ("spec one () : nat\n  return 1\nend\n", "", 0, "= 1\n"),
    (
        "spec over (a: nat) : nat\n  b <- a + 1\n  return b\nend\n",
        "with a = 18446744073709551615\n",
        0,
        "= 0\n",
    ),
    (
        "spec choice () : list as vec\n  z <- either\n    a <- zeros 2 as vec\n    return a\n  or\n    b <- nil as vec\n    return b\n  end\n  return z\nend\n",
        "",
        0,
        "= []\n",
    ),
    (
        "spec a () : nat\n  x <- any 3 9\n  return x\nend\n",
        "",
        0,
        "= 3\n",
    ),
];

/// Containers, in loops and by steps.
const CONTAINERS: [Case; 10] = [
    (
        "spec dedup (xs: list as array kept) : set as bits 1000\n  s0 <- empty as bits 1000\n  n <- len xs\n  (i, s) <- while (i, s) from (0, s0) if i < n do\n    x <- get xs i\n    assert x < 1000\n    t <- insert s x\n    return (i + 1, t)\n  end\n  return s\nend\n",
        "with xs = []\n",
        0,
        "= {}\n",
    ),
    (
        "spec dedup (xs: list as array kept) : set as bits 1000\n  s0 <- empty as bits 1000\n  n <- len xs\n  (i, s) <- while (i, s) from (0, s0) if i < n do\n    x <- get xs i\n    assert x < 1000\n    t <- insert s x\n    return (i + 1, t)\n  end\n  return s\nend\n",
        "with xs = [3, 1, 3]\n",
        0,
        "= {1, 3}\n",
    ),
    (
        "spec ins (x: nat) : set as bits 1000\n  s <- empty as bits 1000\n  assert x < 1000\n  t <- insert s x\n  return t\nend\n",
        "with x = 999\n",
        0,
        "= {999}\n",
    ),
    (
        "spec probe () : (bool, set as hset)\n  s0 <- empty as hset\n  s1 <- insert s0 0\n  s2 <- insert s1 8\n  s3 <- insert s2 16\n  s4 <- remove s3 8\n  b <- has s4 16\n  s5 <- insert s4 8\n  s6 <- insert s5 24\n  s7 <- insert s6 32\n  s8 <- insert s7 40\n  return (b, s8)\nend\n",
        "",
        0,
        "= true\n= {0, 8, 16, 24, 32, 40}\n",
    ),
    (
        "spec p (s: set as bits 100 kept) : nat\n  x <- pick s\n  return x\nend\n",
        "with s = {5, 11}\n",
        0,
        "= 5\n",
    ),
    (
        "spec p (s: set as hset kept) : nat\n  x <- pick s\n  return x\nend\n",
        "with s = {5, 11}\n",
        0,
        "= 11\n",
    ),
    (
        "spec b () : (nat, bag as heap)\n  a <- empty as heap\n  c <- add (add (add a 5) 3) 3\n  (m, d) <- take_min c\n  return (m, d)\nend\n",
        "",
        0,
        "= 3\n= bag [3, 5]\n",
    ),
    (
        "spec f (s: set as hset kept) : nat\n  t <- foreach x in s (a) from 0 do\n    return a + x\n  end\n  return t\nend\n",
        "with s = {1, 2, 3}\n",
        0,
        "= 6\n",
    ),
    (
        "spec m () : map as hmap\n  a <- empty as hmap\n  b <- put (put a 5 1) 5 2\n  c <- del b 6\n  return c\nend\n",
        "",
        0,
        "= {5: 2}\n",
    ),
    (
        "spec v () : (nat, list as vec)\n  a <- nil as vec\n  b <- push (push a 4) 5\n  (x, c) <- pop b\n  return (x, c)\nend\n",
        "",
        0,
        "= 5\n= [4]\n",
    ),
];

/// Ends that are no results.
const OTHERS: [Case; 5] = [
    (
        "spec ins (x: nat) : set as bits 1000\n  s <- empty as bits 1000\n  assert x < 1000\n  t <- insert s x\n  return t\nend\n",
        "with x = 1000\n",
        12,
        "! no value 1\n",
    ),
    (
        "spec d () : nat\n  x <- call g(0)\n  return x\nend\nfun g (n: nat) : nat\n  y <- call g(n)\n  return y\nend\n",
        "",
        13,
        "! depth -\n",
    ),
    (
        "spec p (s: set as bits 10 kept) : nat\n  x <- pick s\n  return x\nend\n",
        "with s = {10}\n",
        5,
        "! input s fit 10\n",
    ),
    (
        "spec p (s: set as bits 10 kept) : nat\n  x <- pick s\n  return x\nend\n",
        "",
        5,
        "! input s missing\n",
    ),
    (
        "spec p (s: set as bits 10 kept) : nat\n  x <- pick s\n  return x\nend\n",
        "with t = 1\n",
        5,
        "! input t unknown\n",
    ),
];

#[test]
fn numbers_and_choices_give_their_results(rt: HostRuntime) -> Result<(), Fail> {
    let count = ran(rt.alloc(), &NUMBERS)?;
    assert_eq!(rt; count, NUMBERS.len());
    Ok(())
}

#[test]
fn containers_give_their_results(rt: HostRuntime) -> Result<(), Fail> {
    let count = ran(rt.alloc(), &CONTAINERS)?;
    assert_eq!(rt; count, CONTAINERS.len());
    Ok(())
}

#[test]
fn ends_without_results_are_told(rt: HostRuntime) -> Result<(), Fail> {
    let count = ran(rt.alloc(), &OTHERS)?;
    assert_eq!(rt; count, OTHERS.len());
    Ok(())
}
