//! Specifications with programs and derivations that fit, written by hand.

use crate::outcome::Text;

/// The first element of a list.
pub(crate) const FIRST: Text = (
    "spec first (xs: list as array kept) : nat\n  x <- get xs 0\n  return x\nend\n",
    "sepref 1\nin xs array kept\nout word\nproc main 3 5\n  r3 = const 0\n  r4 = call array_get(r0, r1, r2, r3)\n  ret r4\nend\nproc array_get 4 6\n  r4 = add r1 r3\n  r5 = load r0 r4\n  ret r5\nend\n",
    "row array_get\n",
);

/// A loop in which an assert tells that an element is below the bound of a set.
pub(crate) const DEDUP: Text = (
    "spec dedup (xs: list as array kept) : set as bits 1000\n  s0 <- empty as bits 1000\n  n <- len xs\n  (i, s) <- while (i, s) from (0, s0) if i < n do\n    x <- get xs i\n    assert x < 1000\n    t <- insert s x\n    return (i + 1, t)\n  end\n  return s\nend\n",
    "sepref 1\nin xs array kept\nout bits 1000\nproc main 3 11\n  r3 = const 1000\n  r4, r5 = call bits_empty(r3)\n  r6 = const 0\n  while\n    r7 = lt r6 r2\n  do r7\n    r8 = call array_get(r0, r1, r2, r6)\n    r9 = const 1000\n    r4, r5 = call bits_insert(r9, r4, r5, r8)\n    r10 = const 1\n    r6 = add r6 r10\n  end\n  ret r4, r5\nend\nproc array_get 4 6\n  r4 = add r1 r3\n  r5 = load r0 r4\n  ret r5\nend\nproc bits_empty 1 4\n  r1 = const 63\n  r2 = add r0 r1\n  r1 = const 64\n  r2 = div r2 r1\n  r1 = alloc r2\n  ret r1, r3\nend\nproc bits_insert 4 9\n  r4 = const 64\n  r6 = mod r3 r4\n  r4 = div r3 r4\n  r5 = const 1\n  r6 = shl r5 r6\n  r7 = load r1 r4\n  r8 = and r7 r6\n  if r8\n  else\n    r7 = or r7 r6\n    store r1 r4 r7\n    r2 = add r2 r5\n  end\n  ret r1, r2\nend\n",
    "row bits_empty\nreg\nwhile r6, r4, r5\ncalc\nrow array_get\nrow bits_insert\ncalc\n",
);

/// Either of two numbers.
pub(crate) const EITHER: &str =
    "spec one_of (x: nat, y: nat) : nat\n  z <- either\n    a <- x + y\n    return a\n  or\n    return x\n  end\n  return z\nend\n";

/// A program of the left one.
pub(crate) const LEFT: Text = (
    EITHER,
    "sepref 1\nin x word\nin y word\nout word\nproc main 2 3\n  r2 = add r0 r1\n  ret r2\nend\n",
    "left\ncalc\n",
);

/// A program of the right one.
pub(crate) const RIGHT: Text = (
    EITHER,
    "sepref 1\nin x word\nin y word\nout word\nproc main 2 2\n  ret r0\nend\n",
    "right\n",
);

/// A number with all below it, by a procedure that calls itself.
pub(crate) const DOWN: Text = (
    "spec down (n: nat) : nat\n  a <- call sum(n)\n  return a\nend\nfun sum (n: nat) : nat\n  s <- if n == 0 then\n    return 0\n  else\n    m <- n - 1\n    t <- call sum(m)\n    return n + t\n  end\n  return s\nend\n",
    "sepref 1\nin n word\nout word\nproc main 1 2\n  r1 = call p1(r0)\n  ret r1\nend\nproc p1 1 5\n  r1 = const 0\n  r2 = eq r0 r1\n  if r2\n    r3 = const 0\n  else\n    r1 = const 1\n    r4 = sub r0 r1\n    r3 = call p1(r4)\n    r3 = add r0 r3\n  end\n  ret r3\nend\n",
    "use\ncalc\nif r3\ncalc\nuse\ncalc\n",
);

/// Two lists that are changed at once.
pub(crate) const PAIR: Text = (
    "spec pair (xs: list as array, ys: list as array) : (list as array, list as array)\n  (a, b) <- par\n    p <- set xs 0 9\n    return p\n  and\n    q <- set ys 0 8\n    return q\n  end\n  return (a, b)\nend\n",
    "sepref 1\nin xs array\nin ys array\nout array\nout array\nproc main 6 12\n  par r6, r7, r8 = b1(r0, r1, r2) hand [r0] | r9, r10, r11 = b2(r3, r4, r5) hand [r3]\n  ret r6, r7, r8, r9, r10, r11\nend\nproc b1 3 8\n  r3 = const 0\n  r4 = const 9\n  r5, r6, r7 = call array_set(r0, r1, r2, r3, r4)\n  ret r5, r6, r7\nend\nproc b2 3 8\n  r3 = const 0\n  r4 = const 8\n  r5, r6, r7 = call array_set(r0, r1, r2, r3, r4)\n  ret r5, r6, r7\nend\nproc array_set 5 6\n  r5 = add r1 r3\n  store r0 r5 r4\n  ret r0, r1, r2\nend\n",
    "par\nrow array_set\nrow array_set\n",
);

/// A list whose parts are looked at at once.
pub(crate) const HALVES: Text = (
    "spec halves (xs: list as array, k: nat) : (list as array, nat, nat)\n  (ys, a, b) <- split xs at k left l\n    n <- len l\n    return (l, n)\n  right r\n    m <- len r\n    return (r, m)\n  end\n  return (ys, a, b)\nend\n",
    "sepref 1\nin xs array\nin k word\nout array\nout word\nout word\nproc main 4 14\n  r4 = add r1 r3\n  r5 = sub r2 r3\n  par r6, r7, r8, r9 = b1(r0, r1, r3) hand [r0 from r1 for r3] | r10, r11, r12, r13 = b2(r0, r4, r5) hand [r0 from r4 for r5]\n  ret r0, r1, r2, r9, r13\nend\nproc b1 3 3\n  ret r0, r1, r2, r2\nend\nproc b2 3 3\n  ret r0, r1, r2, r2\nend\n",
    "split r4 r5\nreg\nreg\n",
);
