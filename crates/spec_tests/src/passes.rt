//! What the rules pass.

use crate::runs::{answered, answers};
use std::alloc::Global;
use std::test::Fail;

// Texts that `check` writes as they are.
const PASSES: [&str; 17] = [
    "spec facts (x: nat, y: nat, z: nat) : set as bits 10\n  s <- empty as bits 10\n  assert x < 10 && (y < 5 && z == 1)\n  s <- insert s x\n  s <- insert s y\n  w <- z % 10\n  s <- insert s w\n  s <- insert s (z % 7)\n  k <- any 0 10\n  s <- insert s k\n  s <- insert s 9\n  return s\nend\n",
    "spec tests (x: nat) : set as bits 10\n  s <- empty as bits 10\n  s <- if x < 10 then\n    t <- insert s x\n    return t\n  else\n    return s\n  end\n  (i, s) <- while (i, s) from (0, s) if i < 10 && i != x do\n    t <- insert s i\n    return (i + 1, t)\n  end\n  return s\nend\n",
    "spec scope (x: nat) : (set as bits 10, map as amap 10)\n  assert x < 10\n  (s, m) <- par\n    return insert (empty as bits 10) x\n  and\n    m <- while m from empty as amap 10 if !has m x do\n      n <- put m x 1\n      return n\n    end\n    return m\n  end\n  return (s, m)\nend\n",
    "spec sides (xs: list as array, c: bool) : nat\n  n <- if c then\n    ys <- set xs 0 1\n    return get ys 0\n  else\n    return get xs 0\n  end\n  return n\nend\n",
    "spec first (xs: list as array kept) : nat\n  ys <- copy xs\n  zs <- set ys 0 1\n  assert len ys == len zs\n  return get xs 0\nend\n",
    "spec choice () : list as vec\n  z <- either\n    a <- zeros 2 as vec\n    return a\n  or\n    b <- nil as vec\n    return b\n  end\n  return z\nend\n",
    "spec choice (xs: list as array) : list as array\n  n <- either\n    return len xs\n  or\n    ys <- set xs 0 1\n    return len ys\n  end\n  return xs\nend\n",
    "spec two (xs: list as array kept) : (nat, nat)\n  (a, b) <- par\n    x <- get xs 0\n    return x\n  and\n    y <- get xs 1\n    return y\n  end\n  return (a, b)\nend\n",
    "spec pair (xs: list as array, ys: list as array) : (list as array, list as array)\n  (a, b) <- par\n    p <- set xs 0 9\n    return p\n  and\n    q <- set ys 0 8\n    return q\n  end\n  return (a, b)\nend\n",
    "spec asserted (xs: list as array) : (list as array, nat, nat)\n  ys <- set xs 0 1\n  (a, b) <- par\n    assert len xs == 3\n    return 1\n  and\n    return 2\n  end\n  return (ys, a, b)\nend\n",
    "spec looped (xs: list as array) : list as array\n  (i, ys) <- while (i, u) from (0, xs) if i < 3 do\n    v <- split u at i left a\n      return a\n    right b\n      return b\n    end\n    return (i + 1, v)\n  end\n  return ys\nend\n",
    "spec each (s: set as hset, xs: list as array) : (list as vec, list as array)\n  z <- foreach x in s (u) from nil as vec do\n    w <- push u (x + len xs)\n    return w\n  end\n  return (z, xs)\nend\n",
    "spec probe () : (bool, set as hset)\n  s0 <- empty as hset\n  s1 <- insert s0 0\n  s2 <- remove s1 8\n  b <- has s2 16\n  return (b, s2)\nend\n",
    "spec chosen (s: set as hset, h: bag as heap) : (nat, bag as heap)\n  lo <- pick s\n  k <- any lo (lo + 9)\n  (i, g) <- foreach x in s (i, g) from (k, h) do\n    (y, f) <- take_min g\n    return (i + x * y, f)\n  end\n  return (i, g)\nend\n",
    "spec reach (offs: list as array kept, tgts: list as array kept, src: nat) : set as bits 1000\n  assert src < 1000\n  s0 <- empty as bits 1000\n  s1 <- insert s0 src\n  q0 <- nil as vec\n  q1 <- push q0 src\n  (h, q, s) <- while (h, q, s) from (0, q1, s1) if h < len q do\n    v <- get q h\n    i0 <- get offs v\n    i1 <- get offs (v + 1)\n    (i, q2, s2) <- while (i, q, s) from (i0, q, s) if i < i1 do\n      w <- get tgts i\n      assert w < 1000\n      seen <- has s w\n      (q3, s3) <- if seen then\n        return (q, s)\n      else\n        q4 <- push q w\n        s4 <- insert s w\n        return (q4, s4)\n      end\n      return (i + 1, q3, s3)\n    end\n    return (h + 1, q2, s2)\n  end\n  return s\nend\n",
    "spec sums (xs: list as array) : (list as array, nat)\n  (ys, s) <- call tree(xs)\n  return (ys, s)\nend\nfun tree (l: list as slice) : (list as slice, nat)\n  n <- len l\n  (m, s) <- if n < 2 then\n    t <- if n == 0 then\n      return 0\n    else\n      x <- get l 0\n      return x\n    end\n    return (l, t)\n  else\n    (k, p, q) <- split l at n / 2 left u\n      (v, a) <- call tree(u)\n      return (v, a)\n    right w\n      (v, a) <- call tree(w)\n      return (v, a)\n    end\n    return (k, p + q)\n  end\n  return (m, s)\nend\n",
    "spec s (xs: list as array, ys: list as array) : (list as array, list as array)\n  (a, b) <- call f(xs, ys, false)\n  return (a, b)\nend\nfun f (a: list as slice, b: list as slice, c: bool) : (list as slice, list as slice)\n  a <- set a 0 1\n  b <- swap b 0 1\n  (p, q) <- if c then\n    return (a, b)\n  else\n    (p, q) <- call f(a, b, true)\n    return (p, q)\n  end\n  return (p, q)\nend\n",
];

// Texts with another layout, and what `check` writes for them.
const LAID_OUT: [(&str, u8, &str); 2] = [
    (
        "spec two(xs:list as array kept):nat # both\n(a,b)<-par return get xs 0 and return (get xs 1) end return (a+b) end\nwith xs = [1, 2]\n",
        0,
        "spec two (xs: list as array kept) : nat\n  (a, b) <- par\n    return get xs 0\n  and\n    return get xs 1\n  end\n  return a + b\nend\n",
    ),
    (
        "spec one () : nat\n  return 1 + 1\nend\nfun f(l:list as slice):list as slice return l end",
        0,
        "spec one () : nat\n  return 1 + 1\nend\nfun f (l: list as slice) : list as slice\n  return l\nend\n",
    ),
];

// How many of the first texts `check` writes as they are.
fn written(alloc: Global, texts: &[&str]) -> Result<usize, Fail> {
    for (at, text) in texts.iter().enumerate() {
        if !answers(alloc, "check", text, 0, text)? {
            return Ok(at);
        }
    }
    Ok(texts.len())
}

#[test]
fn what_the_rules_pass_is_written_in_canonical_form(rt: HostRuntime) -> Result<(), Fail> {
    let count = written(rt.alloc(), &PASSES)?;
    assert_eq!(rt; count, PASSES.len());
    let others = answered(rt.alloc(), "check", &LAID_OUT)?;
    assert_eq!(rt; others, LAID_OUT.len());
    Ok(())
}
