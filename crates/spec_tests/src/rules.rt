//! What the rules refuse: each reason at each construct that can give it. Behind each text stands the line that refuses it, which
//! was written by hand.

use crate::runs::answers;
use std::alloc::Global;
use std::test::Fail;

// Operations: a container is gone, no row fits, one container is taken twice, one must stay.
const OPERATIONS: [&str; 30] = [
    "spec lost (xs: list as array) : nat\n  ys <- set xs 0 7\n  x <- get xs 0\n  return x\nend\n",
    "! rule 3 8 get (array, word) gone xs\n",
    "spec p (v: list as vec) : (nat, list as vec)\n  (x, w) <- pop v\n  n <- len v\n  return (x + n, w)\nend\n",
    "! rule 3 8 len (vec) gone v\n",
    "spec o (s: set as bits 10, t: set as bits 10) : (set as bits 10, set as bits 10)\n  u <- insert t 1\n  v <- union s t\n  return (u, v)\nend\n",
    "! rule 3 8 union (bits 10, bits 10) gone t\n",
    "spec o (xs: list as array) : nat\n  ys <- xs\n  zs <- set ys 0 1\n  x <- get ys 0\n  return x\nend\n",
    "! rule 4 8 get (array, word) gone xs\n",
    "spec o (xs: list as array) : list as vec\n  ys <- set xs 0 1\n  zs <- push xs 2\n  return zs\nend\n",
    "! rule 3 9 push (array, word) gone xs\n",
    "spec t (xs: list as array) : list as array\n  ys <- push xs 1\n  return ys\nend\n",
    "! rule 2 9 push (array, word) missing\n",
    "spec n () : set as hset\n  s <- empty as hset\n  t <- copy s\n  u <- union s t\n  return u\nend\n",
    "! rule 4 8 union (hset, hset) missing\n",
    "spec n () : set as hset\n  s <- empty as hset\n  u <- union s s\n  return u\nend\n",
    "! rule 3 8 union (hset, hset) missing\n",
    "spec n (s: set as bits 10, t: set as bits 11) : set as bits 10\n  u <- union s t\n  return u\nend\n",
    "! rule 2 8 union (bits 10, bits 11) missing\n",
    "spec n () : list as vec\n  v <- zeros 3 as vec\n  return v\nend\n",
    "! rule 2 8 zeros (word) missing\n",
    "spec u (s: set as bits 1000) : set as bits 1000\n  t <- union s s\n  return t\nend\n",
    "! rule 2 8 union (bits 1000, bits 1000) twice s\n",
    "spec u (s: set as bits 10 kept) : set as bits 10\n  t <- union s s\n  return t\nend\n",
    "! rule 2 8 union (bits 10, bits 10) twice s\n",
    "spec h (xs: list as array kept) : list as array\n  ys <- set xs 0 1\n  return ys\nend\n",
    "! rule 2 9 set (array, word, word) held xs\n",
    "spec h (h: bag as heap kept) : nat\n  (x, g) <- take_min h\n  return x\nend\n",
    "! rule 2 13 take_min (heap) held h\n",
    "spec h (s: set as bits 10 kept, x: nat) : set as bits 10\n  t <- insert s x\n  return t\nend\n",
    "! rule 2 8 insert (bits 10, word) held s\n",
];

// Operations that want a number below a bound.
const FACTS: [&str; 24] = [
    "spec ins (x: nat) : set as bits 1000\n  s <- empty as bits 1000\n  t <- insert s x\n  return t\nend\n",
    "! rule 3 8 insert (bits 1000, word) fact x 1000\n",
    "spec ins (x: nat) : set as bits 1000\n  s <- empty as bits 1000\n  assert x < 1001\n  t <- insert s x\n  return t\nend\n",
    "! rule 4 8 insert (bits 1000, word) fact x 1000\n",
    "spec ins (x: nat) : set as bits 1000\n  s <- empty as bits 1000\n  assert x <= 999\n  t <- insert s x\n  return t\nend\n",
    "! rule 4 8 insert (bits 1000, word) fact x 1000\n",
    "spec ins (x: nat) : set as bits 1000\n  s <- empty as bits 1000\n  assert x < 1000 || x < 10\n  t <- insert s x\n  return t\nend\n",
    "! rule 4 8 insert (bits 1000, word) fact x 1000\n",
    "spec k (x: nat) : map as amap 7\n  m <- empty as amap 7\n  n <- put m x 1\n  return n\nend\n",
    "! rule 3 8 put (amap 7, word, word) fact x 7\n",
    "spec l () : set as bits 1000\n  s <- empty as bits 1000\n  t <- insert s 1000\n  return t\nend\n",
    "! rule 3 8 insert (bits 1000, word) fact 1000 1000\n",
    "spec l (x: nat) : set as bits 1000\n  s <- empty as bits 1000\n  t <- insert s (x + 1)\n  return t\nend\n",
    "! rule 3 8 insert (bits 1000, word) fact _ 1000\n",
    "spec r (x: nat) : set as bits 10\n  s <- empty as bits 10\n  y <- x % 11\n  t <- insert s y\n  return t\nend\n",
    "! rule 4 8 insert (bits 10, word) fact y 10\n",
    "spec a () : set as bits 10\n  s <- empty as bits 10\n  y <- any 0 11\n  t <- insert s y\n  return t\nend\n",
    "! rule 4 8 insert (bits 10, word) fact y 10\n",
    "spec f (x: nat) : set as bits 10\n  s <- empty as bits 10\n  n <- if x < 10 then\n    return 1\n  else\n    return 2\n  end\n  t <- insert s x\n  return t\nend\n",
    "! rule 8 8 insert (bits 10, word) fact x 10\n",
    "spec f (x: nat) : set as bits 10\n  s <- empty as bits 10\n  t <- if x < 10 then\n    return s\n  else\n    u <- insert s x\n    return u\n  end\n  return t\nend\n",
    "! rule 6 10 insert (bits 10, word) fact x 10\n",
    "spec f () : set as bits 10\n  s <- empty as bits 10\n  i <- while i from 0 if i < 10 do\n    return i + 1\n  end\n  t <- insert s i\n  return t\nend\n",
    "! rule 6 8 insert (bits 10, word) fact i 10\n",
];

// Results of the specification, and of one block of each kind.
const RESULTS: [&str; 46] = [
    "spec g (xs: list as array) : list as array\n  ys <- set xs 0 1\n  return xs\nend\n",
    "! rule 3 3 return (array) gone xs\n",
    "spec g (xs: list as array) : (list as array, list as array)\n  ys <- set xs 0 1\n  return (xs, xs)\nend\n",
    "! rule 3 3 return (array, array) gone xs\n",
    "spec g (xs: list as array) : (list as array, list as array)\n  return (xs, xs)\nend\n",
    "! rule 2 3 return (array, array) twice xs\n",
    "spec g (xs: list as array kept) : (list as array, list as array)\n  return (xs, xs)\nend\n",
    "! rule 2 3 return (array, array) twice xs\n",
    "spec g (xs: list as array kept) : list as array\n  return xs\nend\n",
    "! rule 2 3 return (array) held xs\n",
    "spec g (xs: list as array kept) : list as vec\n  return xs\nend\n",
    "! rule 2 3 return (array) held xs\n",
    "spec r () : list as array\n  v <- nil as vec\n  return v\nend\n",
    "! rule 3 3 return (vec) result 1\n",
    "spec r () : (nat, list as array)\n  v <- nil as vec\n  return (1, v)\nend\n",
    "! rule 3 3 return (word, vec) result 2\n",
    "spec r () : (set as bits 10, set as bits 10)\n  s <- empty as bits 10\n  t <- empty as bits 11\n  return (s, t)\nend\n",
    "! rule 4 3 return (bits 10, bits 11) result 2\n",
    "spec i (xs: list as array, c: bool) : list as array\n  ys <- set xs 0 1\n  zs <- if c then\n    return xs\n  else\n    return ys\n  end\n  return zs\nend\n",
    "! rule 4 5 return (array) gone xs\n",
    "spec i (xs: list as array, c: bool) : (list as array, list as array)\n  (y, z) <- if c then\n    d <- copy xs\n    return (xs, d)\n  else\n    return (xs, xs)\n  end\n  return (y, z)\nend\n",
    "! rule 6 5 return (array, array) twice xs\n",
    "spec i (xs: list as array kept, c: bool) : list as array\n  ys <- if c then\n    return xs\n  else\n    return xs\n  end\n  return ys\nend\n",
    "! rule 3 5 return (array) held xs\n",
    "spec w (xs: list as array) : list as array\n  zs <- while u from xs if true do\n    v <- set u 0 1\n    return u\n  end\n  return zs\nend\n",
    "! rule 4 5 return (array) gone u\n",
    "spec w (xs: list as array, ys: list as array) : (list as array, list as array)\n  (a, b) <- while (u, v) from (xs, ys) if true do\n    return (u, u)\n  end\n  return (a, b)\nend\n",
    "! rule 3 5 return (array, array) twice u\n",
    "spec w (xs: list as array, ys: list as array) : list as array\n  zs <- while u from xs if true do\n    return ys\n  end\n  return zs\nend\n",
    "! rule 3 5 return (array) held ys\n",
    "spec e (s: set as hset, xs: list as array) : list as vec\n  z <- foreach x in s (u) from nil as vec do\n    return xs\n  end\n  return z\nend\n",
    "! rule 3 5 return (array, word) held xs\n",
    "spec p (xs: list as array) : (list as array, nat)\n  (a, b) <- par\n    ys <- set xs 0 1\n    return xs\n  and\n    return 1\n  end\n  return (a, b)\nend\n",
    "! rule 4 5 return (array) gone xs\n",
    "spec p (xs: list as array) : (nat, list as array, list as array)\n  (a, b, c) <- par\n    return 1\n  and\n    return (xs, xs)\n  end\n  return (a, b, c)\nend\n",
    "! rule 5 5 return (array, array) twice xs\n",
    "spec p (xs: list as array) : (list as array, nat)\n  (a, b) <- par\n    return xs\n  and\n    return len xs\n  end\n  return (a, b)\nend\n",
    "! rule 3 5 return (array) held xs\n",
    "spec s (xs: list as array) : list as array\n  ys <- split xs at 1 left l\n    m <- set l 0 1\n    return l\n  right r\n    return r\n  end\n  return ys\nend\n",
    "! rule 4 5 return (slice) gone l\n",
    "spec s (xs: list as array) : (list as array, list as array)\n  (ys, zs) <- split xs at 1 left l\n    return l\n  right r\n    return (r, r)\n  end\n  return (ys, zs)\nend\n",
    "! rule 5 5 return (slice, slice) twice r\n",
    "spec s (xs: list as array, ys: list as array) : (list as array, list as array, nat)\n  (a, b, c) <- split xs at 1 left l\n    return (l, ys)\n  right r\n    return (r, len ys)\n  end\n  return (a, b, c)\nend\n",
    "! rule 3 5 return (slice, array) held ys\n",
    "spec e (xs: list as array kept) : list as array\n  z <- either\n    return xs\n  or\n    return xs\n  end\n  return z\nend\n",
    "! rule 5 5 return (array) held xs\n",
];

// Slices that do not come back.
const SLICES: [&str; 22] = [
    "spec swaps (xs: list as array) : list as array\n  ys <- split xs at 1 left l\n    c <- copy l\n    return c\n  right r\n    return r\n  end\n  return ys\nend\n",
    "! rule 4 5 return (array) tag l\n",
    "spec swaps (xs: list as array) : list as array\n  ys <- split xs at 1 left l\n    return l\n  right r\n    c <- copy r\n    return c\n  end\n  return ys\nend\n",
    "! rule 6 5 return (array) tag r\n",
    "spec order (xs: list as array) : (list as array, list as array)\n  (ys, zs) <- split xs at 1 left l\n    c <- copy l\n    return (c, l)\n  right r\n    return r\n  end\n  return (ys, zs)\nend\n",
    "! rule 4 5 return (array, slice) tag l\n",
    "spec inner (xs: list as array, c: bool) : (list as array, nat)\n  (ys, n) <- split xs at 1 left l\n    w <- if c then\n      q <- split l at 0 left e\n        return e\n      right f\n        return f\n      end\n      return 1\n    else\n      return 2\n    end\n    return (l, w)\n  right r\n    return r\n  end\n  return (ys, n)\nend\n",
    "! rule 9 7 return (word) tag q\n",
    "spec w (xs: list as array) : list as array\n  ys <- split xs at 1 left l\n    m <- while u from l if true do\n      x <- copy u\n      return x\n    end\n    return m\n  right r\n    return r\n  end\n  return ys\nend\n",
    "! rule 5 7 return (array) tag u\n",
    "spec s () : nat\n  return 1\nend\nfun f (l: list as slice) : list as slice\n  c <- copy l\n  return c\nend\n",
    "! rule 6 3 return (array) tag l\n",
    "spec s (xs: list as array) : list as array\n  ys <- call f(xs)\n  return ys\nend\nfun f (l: list as slice) : list as slice\n  c <- copy l\n  return c\nend\n",
    "! rule 7 3 return (array) tag l\n",
    "spec s () : nat\n  return 1\nend\nfun f (a: list as slice, b: list as slice) : (list as slice, list as slice)\n  return (b, a)\nend\n",
    "! rule 5 3 return (slice, slice) tag a\n",
    "spec s () : nat\n  return 1\nend\nfun f (a: list as slice, b: list as slice) : (list as slice, list as slice)\n  c <- copy b\n  return (a, c)\nend\n",
    "! rule 6 3 return (slice, array) tag b\n",
    "spec s () : nat\n  return 1\nend\nfun f (a: list as slice, b: list as slice) : (list as slice, list as slice)\n  (p, q) <- call f(b, a)\n  return (p, q)\nend\n",
    "! rule 6 3 return (slice, slice) tag a\n",
    "spec s () : nat\n  return 1\nend\nfun f (a: list as slice, b: list as slice) : (list as slice, list as slice)\n  (l, r) <- while (u, v) from (a, b) if true do\n    return (v, u)\n  end\n  return (l, r)\nend\n",
    "! rule 6 5 return (slice, slice) result 1\n",
];

// Sides of `if` and `either`.
const SIDES: [&str; 18] = [
    "spec mixed (xs: list as array, c: bool) : list as array\n  ys <- split xs at 0 left l\n    return l\n  right r\n    q <- if c then\n      return r\n    else\n      d <- copy r\n      return d\n    end\n    return q\n  end\n  return ys\nend\n",
    "! rule 5 10 if () meet r\n",
    "spec s () : nat\n  return 1\nend\nfun f (a: list as slice, b: list as slice, c: bool) : (list as slice, list as slice)\n  (x, y) <- if c then\n    d <- copy a\n    return (b, d)\n  else\n    d <- copy b\n    return (a, d)\n  end\n  return (x, y)\nend\n",
    "! rule 5 13 if () meet a\n",
    "spec sides (c: bool) : list as vec\n  v <- if c then\n    x <- nil as vec\n    return x\n  else\n    y <- zeros 1 as array\n    return y\n  end\n  return v\nend\n",
    "! rule 2 8 if () result 1\n",
    "spec sides (c: bool) : (nat, set as bits 10)\n  (n, s) <- if c then\n    return (1, empty as bits 10)\n  else\n    return (1, empty as bits 11)\n  end\n  return (n, s)\nend\n",
    "! rule 2 13 if () result 2\n",
    "spec s () : nat\n  return 1\nend\nfun f (a: list as slice, b: list as slice, c: bool) : (list as slice, list as slice)\n  (x, y) <- if c then\n    return (a, b)\n  else\n    return (b, a)\n  end\n  return (x, y)\nend\n",
    "! rule 5 13 if () result 1\n",
    "spec i (xs: list as array, c: bool) : nat\n  n <- if c then\n    ys <- set xs 0 1\n    return len ys\n  else\n    return 0\n  end\n  y <- get xs 0\n  return n + y\nend\n",
    "! rule 8 8 get (array, word) gone xs\n",
    "spec i (xs: list as array kept, c: bool) : list as array\n  ys <- if c then\n    zs <- set xs 0 1\n    return zs\n  else\n    return xs\n  end\n  return ys\nend\n",
    "! rule 3 11 set (array, word, word) held xs\n",
    "spec e () : list as vec\n  z <- either\n    a <- zeros 2 as vec\n    return a\n  or\n    b <- zeros 3 as vec\n    return b\n  end\n  return z\nend\n",
    "! rule 6 10 zeros (word) missing\n",
    "spec e (xs: list as array) : nat\n  n <- either\n    ys <- push xs 1\n    return 1\n  or\n    ys <- set xs 0 1\n    return 2\n  end\n  x <- get xs 0\n  return n + x\nend\n",
    "! rule 9 8 get (array, word) gone xs\n",
];

// Loops.
const LOOPS: [&str; 30] = [
    "spec w (xs: list as array) : list as array\n  ys <- set xs 0 1\n  zs <- while u from xs if true do\n    return u\n  end\n  return zs\nend\n",
    "! rule 3 9 while () gone xs\n",
    "spec w (xs: list as array kept) : list as array\n  zs <- while u from xs if true do\n    return u\n  end\n  return zs\nend\n",
    "! rule 2 9 while () held xs\n",
    "spec w (xs: list as array) : (list as array, list as array)\n  (a, b) <- while (u, v) from (xs, xs) if true do\n    return (u, v)\n  end\n  return (a, b)\nend\n",
    "! rule 2 13 while () twice xs\n",
    "spec w (xs: list as array) : nat\n  n <- while i from 0 if i < 3 do\n    ys <- while u from xs if true do\n      return u\n    end\n    return i + 1\n  end\n  return n\nend\n",
    "! rule 3 11 while () held xs\n",
    "spec w (xs: list as array) : nat\n  ys <- while u from xs if true do\n    return u\n  end\n  x <- get xs 0\n  return x\nend\n",
    "! rule 5 8 get (array, word) gone xs\n",
    "spec w (xs: list as array) : nat\n  n <- while i from 0 if i < 3 do\n    ys <- set xs 0 i\n    return i + 1\n  end\n  return n\nend\n",
    "! rule 3 11 set (array, word, word) held xs\n",
    "spec w (xs: list as array) : nat\n  n <- while i from 0 if i < 3 do\n    m <- if i == 1 then\n      ys <- set xs 0 i\n      return 1\n    else\n      return 2\n    end\n    return i + m\n  end\n  return n\nend\n",
    "! rule 4 13 set (array, word, word) held xs\n",
    "spec w () : list as vec\n  v <- nil as vec\n  z <- while u from v if len (push u 1) < 3 do\n    return u\n  end\n  return z\nend\n",
    "! rule 3 31 push (vec, word) held u\n",
    "spec w (v: list as vec) : nat\n  n <- while i from 0 if len (push v i) < 3 do\n    return i + 1\n  end\n  return n\nend\n",
    "! rule 2 31 push (vec, word) held v\n",
    "spec w () : list as vec\n  v <- nil as vec\n  z <- while u from v if true do\n    x <- zeros 1 as array\n    return x\n  end\n  return z\nend\n",
    "! rule 5 5 return (array) result 1\n",
    "spec w () : (nat, list as vec)\n  v <- nil as vec\n  (n, z) <- while (i, u) from (0, v) if true do\n    x <- zeros 1 as array\n    return (i + 1, x)\n  end\n  return (n, z)\nend\n",
    "! rule 5 5 return (word, array) result 2\n",
    "spec e (s: set as hset) : (set as hset, nat)\n  t <- insert s 1\n  n <- foreach x in s (a) from 0 do\n    return a + x\n  end\n  return (t, n)\nend\n",
    "! rule 3 8 elems (hset) gone s\n",
    "spec e (s: set as hset, v: list as vec kept) : list as vec\n  z <- foreach x in s (u) from v do\n    w <- push u x\n    return w\n  end\n  return z\nend\n",
    "! rule 2 8 while () held v\n",
    "spec e (s: set as hset, xs: list as array) : nat\n  n <- foreach x in s (a) from 0 do\n    ys <- set xs 0 x\n    return a + x\n  end\n  return n\nend\n",
    "! rule 3 11 set (array, word, word) held xs\n",
    "spec e (s: set as hset) : list as vec\n  z <- foreach x in s (u) from nil as vec do\n    y <- zeros 1 as array\n    return y\n  end\n  return z\nend\n",
    "! rule 4 5 return (array, word) result 1\n",
];

// Blocks of `par` and of `split`.
const BRANCHES: [&str; 38] = [
    "spec late (xs: list as array) : (nat, nat)\n  ys <- set xs 0 1\n  (a, b) <- par\n    x <- get xs 0\n    return x\n  and\n    return 0\n  end\n  return (a, b)\nend\n",
    "! rule 3 13 par () gone xs\n",
    "spec late (xs: list as array, c: bool) : (nat, nat)\n  ys <- set xs 0 1\n  (a, b) <- par\n    return 0\n  and\n    x <- if c then\n      return get xs 0\n    else\n      return 1\n    end\n    return x\n  end\n  return (a, b)\nend\n",
    "! rule 3 13 par () gone xs\n",
    "spec late (xs: list as array, ys: list as array) : (nat, nat)\n  a <- set ys 0 1\n  b <- set xs 0 1\n  (m, n) <- par\n    return get ys 0\n  and\n    return get xs 0\n  end\n  return (m, n)\nend\n",
    "! rule 4 13 par () gone xs\n",
    "spec clash (xs: list as array) : (list as array, nat)\n  (a, b) <- par\n    p <- set xs 0 9\n    return p\n  and\n    x <- get xs 0\n    return x\n  end\n  return (a, b)\nend\n",
    "! rule 3 10 set (array, word, word) held xs\n",
    "spec clash (xs: list as array) : (nat, list as array)\n  (a, b) <- par\n    x <- get xs 0\n    return x\n  and\n    p <- set xs 0 9\n    return p\n  end\n  return (a, b)\nend\n",
    "! rule 6 10 set (array, word, word) held xs\n",
    "spec after (xs: list as array) : nat\n  (a, b) <- par\n    p <- set xs 0 9\n    return len p\n  and\n    return 1\n  end\n  x <- get xs 0\n  return a + b + x\nend\n",
    "! rule 8 8 get (array, word) gone xs\n",
    "spec s (xs: list as array) : list as array\n  zs <- set xs 0 1\n  ys <- split xs at 0 left l\n    return l\n  right r\n    return r\n  end\n  return ys\nend\n",
    "! rule 3 9 split (array) gone xs\n",
    "spec s (v: list as vec) : list as vec\n  w <- push v 1\n  ys <- split v at 0 left l\n    return l\n  right r\n    return r\n  end\n  return ys\nend\n",
    "! rule 3 9 split (vec) gone v\n",
    "spec s (xs: list as vec) : list as vec\n  ys <- split xs at 0 left l\n    return l\n  right r\n    return r\n  end\n  return ys\nend\n",
    "! rule 2 9 split (vec) missing\n",
    "spec s (xs: list as vec kept) : list as vec\n  ys <- split xs at 0 left l\n    return l\n  right r\n    return r\n  end\n  return ys\nend\n",
    "! rule 2 9 split (vec) missing\n",
    "spec s (xs: list as array kept) : list as array\n  ys <- split xs at 0 left l\n    return l\n  right r\n    return r\n  end\n  return ys\nend\n",
    "! rule 2 9 split (array) held xs\n",
    "spec s (xs: list as array kept, as1: list as array) : (list as array, nat)\n  bs <- set as1 0 1\n  (ys, n) <- split xs at 0 left l\n    return (l, get as1 0)\n  right r\n    return r\n  end\n  return (ys, n)\nend\n",
    "! rule 3 14 split (array) held xs\n",
    "spec s (xs: list as array) : nat\n  n <- while i from 0 if i < 3 do\n    ys <- split xs at 0 left l\n      return l\n    right r\n      return r\n    end\n    return i + 1\n  end\n  return n\nend\n",
    "! rule 3 11 split (array) held xs\n",
    "spec s (xs: list as array, as1: list as array) : (list as array, nat)\n  bs <- set as1 0 1\n  (ys, n) <- split xs at 0 left l\n    x <- get as1 0\n    return (l, x)\n  right r\n    return r\n  end\n  return (ys, n)\nend\n",
    "! rule 3 14 split (array) gone as1\n",
    "spec s (xs: list as array) : (list as array, nat)\n  (ys, n) <- split xs at 0 left l\n    x <- get xs 0\n    return (l, x)\n  right r\n    return r\n  end\n  return (ys, n)\nend\n",
    "! rule 3 10 get (array, word) gone xs\n",
    "spec s (xs: list as array) : (list as array, list as array)\n  (ys, zs) <- split xs at 0 left l\n    return l\n  right r\n    q <- split xs at 1 left a\n      return a\n    right b\n      return b\n    end\n    return (r, q)\n  end\n  return (ys, zs)\nend\n",
    "! rule 5 10 split (array) gone xs\n",
    "spec s (xs: list as array) : (list as array, nat)\n  (ys, n) <- split xs at 0 left l\n    (a, b) <- par\n      return 1\n    and\n      return len xs\n    end\n    return (l, a + b)\n  right r\n    return r\n  end\n  return (ys, n)\nend\n",
    "! rule 3 15 par () gone xs\n",
    "spec s (xs: list as array, ys: list as array) : (list as array, nat, nat)\n  (zs, m, n) <- split xs at 0 left l\n    p <- set ys 0 1\n    return (l, len p)\n  right r\n    return (r, get ys 0)\n  end\n  return (zs, m, n)\nend\n",
    "! rule 3 10 set (array, word, word) held ys\n",
    "spec s (xs: list as array) : nat\n  ys <- split xs at 0 left l\n    return l\n  right r\n    return r\n  end\n  return len xs\nend\n",
    "! rule 7 10 len (array) gone xs\n",
];

// Calls, and procedures by themselves.
const CALLS: [&str; 32] = [
    "spec k (v: list as vec) : nat\n  n <- call f(v)\n  return n\nend\nfun f (xs: list as array kept) : nat\n  return len xs\nend\n",
    "! rule 2 8 call (vec) missing\n",
    "spec k (xs: list as array) : (list as array, nat)\n  (ys, n) <- split xs at 1 left l\n    m <- call f(l)\n    return (l, m)\n  right r\n    return r\n  end\n  return (ys, n)\nend\nfun f (xs: list as array kept) : nat\n  return len xs\nend\n",
    "! rule 3 10 call (slice) missing\n",
    "spec k (v: list as vec) : nat\n  n <- call f(v, v)\n  return n\nend\nfun f (xs: list as array kept, ys: list as array kept) : nat\n  return len xs\nend\n",
    "! rule 2 8 call (vec, vec) missing\n",
    "spec k (xs: list as array) : nat\n  ys <- set xs 0 1\n  n <- call f(xs)\n  return n\nend\nfun f (xs: list as array kept) : nat\n  return len xs\nend\n",
    "! rule 3 8 call (array) gone xs\n",
    "spec k (v: list as vec) : nat\n  w <- push v 1\n  n <- call f(v)\n  return n\nend\nfun f (xs: list as array kept) : nat\n  return len xs\nend\n",
    "! rule 3 8 call (vec) gone v\n",
    "spec k (xs: list as array kept) : nat\n  n <- call f(xs, xs)\n  return n\nend\nfun f (xs: list as array kept, ys: list as array kept) : nat\n  return len xs\nend\n",
    "! rule 2 8 call (array, array) twice xs\n",
    "spec k (xs: list as array kept) : nat\n  n <- call f(xs, xs)\n  return n\nend\nfun f (xs: list as array, ys: list as array) : nat\n  return len xs\nend\n",
    "! rule 2 8 call (array, array) twice xs\n",
    "spec k (xs: list as array kept) : nat\n  n <- call f(xs)\n  return n\nend\nfun f (xs: list as array) : nat\n  return len xs\nend\n",
    "! rule 2 8 call (array) held xs\n",
    "spec k (xs: list as array) : nat\n  n <- while i from 0 if i < 3 do\n    m <- call f(xs)\n    return i + m\n  end\n  return n\nend\nfun f (xs: list as array) : nat\n  return len xs\nend\n",
    "! rule 3 10 call (array) held xs\n",
    "spec k (xs: list as array) : nat\n  n <- call f(xs)\n  return n + len xs\nend\nfun f (xs: list as array) : nat\n  return len xs\nend\n",
    "! rule 3 14 len (array) gone xs\n",
    "spec s () : nat\n  return 1\nend\nfun f (l: list as array) : list as array\n  m <- set l 0 1\n  return l\nend\n",
    "! rule 6 3 return (array) gone l\n",
    "spec s () : nat\n  return 1\nend\nfun f (l: list as array) : (list as array, list as array)\n  return (l, l)\nend\n",
    "! rule 5 3 return (array, array) twice l\n",
    "spec s () : nat\n  return 1\nend\nfun f (l: list as array kept) : list as array\n  return l\nend\n",
    "! rule 5 3 return (array) held l\n",
    "spec s (xs: list as array) : nat\n  return len xs\nend\nfun f (l: list as array) : list as vec\n  return l\nend\n",
    "! rule 5 3 return (array) result 1\n",
    "spec s (xs: list as array kept) : list as array\n  return xs\nend\nfun f (l: list as array kept) : list as array\n  return l\nend\n",
    "! rule 2 3 return (array) held xs\n",
    "spec s () : nat\n  return 1\nend\nfun f (l: list as array kept) : list as array\n  m <- copy l\n  return m\nend\nfun g (l: list as array kept) : list as array\n  m <- set l 0 1\n  return m\nend\nfun h (l: list as array kept) : list as array\n  return l\nend\n",
    "! rule 9 8 set (array, word, word) held l\n",
];

// How many of the first texts a word refuses by the rules, with the line behind them.
fn refused(alloc: Global, word: &str, cases: &[&str]) -> Result<usize, Fail> {
    for (at, case) in cases.chunks_exact(2).enumerate() {
        if let [text, line] = case {
            if !answers(alloc, word, text, 4, line)? {
                return Ok(at);
            }
        }
    }
    Ok(cases.len() / 2)
}

// The same of `check` and of `synth`.
fn all_refused(alloc: Global, cases: &[&str]) -> Result<(usize, usize), Fail> {
    let checked = refused(alloc, "check", cases)?;
    Ok((checked, refused(alloc, "synth", cases)?))
}

#[test]
fn an_operation_without_a_rule_is_refused(rt: HostRuntime) -> Result<(), Fail> {
    let count = all_refused(rt.alloc(), &OPERATIONS)?;
    assert_eq!(rt; count, (15, 15));
    Ok(())
}

#[test]
fn a_number_that_is_not_known_to_be_small_is_refused(rt: HostRuntime) -> Result<(), Fail> {
    let count = all_refused(rt.alloc(), &FACTS)?;
    assert_eq!(rt; count, (12, 12));
    Ok(())
}

#[test]
fn results_that_cannot_move_out_are_refused(rt: HostRuntime) -> Result<(), Fail> {
    let count = all_refused(rt.alloc(), &RESULTS)?;
    assert_eq!(rt; count, (23, 23));
    Ok(())
}

#[test]
fn a_slice_that_does_not_come_back_is_refused(rt: HostRuntime) -> Result<(), Fail> {
    let count = all_refused(rt.alloc(), &SLICES)?;
    assert_eq!(rt; count, (11, 11));
    Ok(())
}

#[test]
fn sides_that_do_not_meet_are_refused(rt: HostRuntime) -> Result<(), Fail> {
    let count = all_refused(rt.alloc(), &SIDES)?;
    assert_eq!(rt; count, (9, 9));
    Ok(())
}

#[test]
fn a_loop_that_uses_up_what_must_stay_is_refused(rt: HostRuntime) -> Result<(), Fail> {
    let count = all_refused(rt.alloc(), &LOOPS)?;
    assert_eq!(rt; count, (15, 15));
    Ok(())
}

#[test]
fn blocks_that_do_not_stand_side_by_side_are_refused(rt: HostRuntime) -> Result<(), Fail> {
    let count = all_refused(rt.alloc(), &BRANCHES)?;
    assert_eq!(rt; count, (19, 19));
    Ok(())
}

#[test]
fn calls_and_procedures_are_refused(rt: HostRuntime) -> Result<(), Fail> {
    let count = all_refused(rt.alloc(), &CALLS)?;
    assert_eq!(rt; count, (16, 16));
    Ok(())
}
