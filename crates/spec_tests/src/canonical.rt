//! Canonical texts read and print to themselves.

use nres_print::print_spec;
use nres_syntax::read_spec;
use std::alloc::Global;
use std::test::Fail;

const TEXTS: [&str; 17] = [
    "spec calls () : nat\n  x <- call f(a - (b - c), a - b - c)\n  return x\nend\nfun f (a: list as slice kept) : list as slice\n  return (!(a == b), !a == b, max (min a b) (!c))\nend\n",
    "spec chosen (s: set as hset, h: bag as heap) : (nat, bag as heap)\n  lo <- pick s\n  k <- any lo (lo + 9)\n  (i, g) <- foreach x in s (i, g) from (k, h) do\n    (y, f) <- take_min g\n    return (i + x * y, f)\n  end\n  return (i, g)\nend\n",
    "spec first (xs: list as array kept) : nat\n  x <- get xs 0\n  return x\nend\n",
    "spec dedup (xs: list as array kept) : set as bits 1000\n  s0 <- empty as bits 1000\n  n <- len xs\n  (i, s) <- while (i, s) from (0, s0) if i < n do\n    x <- get xs i\n    assert x < 1000\n    t <- insert s x\n    return (i + 1, t)\n  end\n  return s\nend\n",
    "spec halves (xs: list as array, k: nat) : (list as array, nat, nat)\n  (ys, a, b) <- split xs at k left l\n    n <- len l\n    return (l, n)\n  right r\n    m <- len r\n    return (r, m)\n  end\n  return (ys, a, b)\nend\n",
    "spec two (xs: list as array kept) : (nat, nat)\n  (a, b) <- par\n    x <- get xs 0\n    return x\n  and\n    y <- get xs 1\n    return y\n  end\n  return (a, b)\nend\n",
    "spec swaps (xs: list as array) : list as array\n  ys <- split xs at 1 left l\n    c <- copy l\n    return c\n  right r\n    return r\n  end\n  return ys\nend\n",
    "spec probe () : (bool, set as hset)\n  s0 <- empty as hset\n  s1 <- insert s0 0\n  s2 <- insert s1 8\n  s3 <- insert s2 16\n  s4 <- remove s3 8\n  b <- has s4 16\n  s5 <- insert s4 8\n  s6 <- insert s5 24\n  s7 <- insert s6 32\n  s8 <- insert s7 40\n  return (b, s8)\nend\n",
    "spec choice () : list as vec\n  z <- either\n    a <- zeros 2 as vec\n    return a\n  or\n    b <- nil as vec\n    return b\n  end\n  return z\nend\n",
    "spec pair (xs: list as array, ys: list as array) : (list as array, list as array)\n  (a, b) <- par\n    p <- set xs 0 9\n    return p\n  and\n    q <- set ys 0 8\n    return q\n  end\n  return (a, b)\nend\n",
    "spec mixed (xs: list as array, c: bool) : list as array\n  ys <- split xs at 0 left l\n    return l\n  right r\n    q <- if c then\n      return r\n    else\n      d <- copy r\n      return d\n    end\n    return q\n  end\n  return ys\nend\n",
    "spec reach (offs: list as array kept, tgts: list as array kept, src: nat) : set as bits 1000\n  assert src < 1000\n  s0 <- empty as bits 1000\n  s1 <- insert s0 src\n  q0 <- nil as vec\n  q1 <- push q0 src\n  (h, q, s) <- while (h, q, s) from (0, q1, s1) if h < len q do\n    v <- get q h\n    i0 <- get offs v\n    i1 <- get offs (v + 1)\n    (i, q2, s2) <- while (i, q, s) from (i0, q, s) if i < i1 do\n      w <- get tgts i\n      assert w < 1000\n      seen <- has s w\n      (q3, s3) <- if seen then\n        return (q, s)\n      else\n        q4 <- push q w\n        s4 <- insert s w\n        return (q4, s4)\n      end\n      return (i + 1, q3, s3)\n    end\n    return (h + 1, q2, s2)\n  end\n  return s\nend\n",
    "spec total (xs: list as array) : nat\n  n <- len xs\n  (ys, a, b) <- split xs at n / 2 left l\n    h <- len l\n    (l2, p, q) <- split l at h / 2 left u\n      m <- len u\n      (i, s) <- while (i, s) from (0, 0) if i < m do\n        x <- get u i\n        return (i + 1, s + x)\n      end\n      return (u, s)\n    right v\n      m <- len v\n      (i, s) <- while (i, s) from (0, 0) if i < m do\n        x <- get v i\n        return (i + 1, s + x)\n      end\n      return (v, s)\n    end\n    return (l2, p + q)\n  right r\n    h <- len r\n    (r2, p, q) <- split r at h / 2 left u\n      m <- len u\n      (i, s) <- while (i, s) from (0, 0) if i < m do\n        x <- get u i\n        return (i + 1, s + x)\n      end\n      return (u, s)\n    right v\n      m <- len v\n      (i, s) <- while (i, s) from (0, 0) if i < m do\n        x <- get v i\n        return (i + 1, s + x)\n      end\n      return (v, s)\n    end\n    return (r2, p + q)\n  end\n  return a + b\nend\n",
    "spec histogram (xs: list as array) : map as amap 1000\n  n <- len xs\n  (ys, ma, mb) <- split xs at n / 2 left l\n    m <- len l\n    e <- empty as amap 1000\n    (i, c) <- while (i, c) from (0, e) if i < m do\n      x <- get l i\n      assert x < 1000\n      p <- has c x\n      v <- if p then\n        w <- lookup c x\n        return w\n      else\n        return 0\n      end\n      d <- put c x (v + 1)\n      return (i + 1, d)\n    end\n    return (l, c)\n  right r\n    m <- len r\n    e <- empty as amap 1000\n    (i, c) <- while (i, c) from (0, e) if i < m do\n      x <- get r i\n      assert x < 1000\n      p <- has c x\n      v <- if p then\n        w <- lookup c x\n        return w\n      else\n        return 0\n      end\n      d <- put c x (v + 1)\n      return (i + 1, d)\n    end\n    return (r, c)\n  end\n  ks <- keys mb\n  k <- len ks\n  (j, mc) <- while (j, c) from (0, ma) if j < k do\n    x <- get ks j\n    assert x < 1000\n    w <- lookup mb x\n    p <- has c x\n    v <- if p then\n      o <- lookup c x\n      return o\n    else\n      return 0\n    end\n    d <- put c x (v + w)\n    return (j + 1, d)\n  end\n  return mc\nend\n",
    "spec late (xs: list as array) : (nat, nat)\n  ys <- set xs 0 1\n  (a, b) <- par\n    x <- get xs 0\n    return x\n  and\n    return 0\n  end\n  return (a, b)\nend\n",
    "spec clash (xs: list as array) : (list as array, nat)\n  (a, b) <- par\n    p <- set xs 0 9\n    return p\n  and\n    x <- get xs 0\n    return x\n  end\n  return (a, b)\nend\n",
    "spec sums (xs: list as array) : (list as array, nat)\n  (ys, s) <- call tree(xs)\n  return (ys, s)\nend\nfun tree (l: list as slice) : (list as slice, nat)\n  n <- len l\n  (m, s) <- if n < 2 then\n    t <- if n == 0 then\n      return 0\n    else\n      x <- get l 0\n      return x\n    end\n    return (l, t)\n  else\n    (k, p, q) <- split l at n / 2 left u\n      (v, a) <- call tree(u)\n      return (v, a)\n    right w\n      (v, a) <- call tree(w)\n      return (v, a)\n    end\n    return (k, p + q)\n  end\n  return (m, s)\nend\n",
];

// Whether the text reads, and its tree prints as the text.
fn prints_to_itself(alloc: Global, text: &str) -> Result<bool, Fail> {
    let found = read_spec(alloc, text.as_bytes())?;
    let printed = print_spec(alloc, &found.0)?;
    Ok(printed.as_slice() == text.as_bytes())
}

// How many of the first texts do.
fn printed(alloc: Global, texts: &[&str]) -> Result<usize, Fail> {
    for (at, text) in texts.iter().enumerate() {
        if !prints_to_itself(alloc, text)? {
            return Ok(at);
        }
    }
    Ok(texts.len())
}

#[test]
fn canonical_texts_print_to_themselves(rt: HostRuntime) -> Result<(), Fail> {
    let count = printed(rt.alloc(), &TEXTS)?;
    assert_eq!(rt; count, TEXTS.len());
    Ok(())
}
