//! What is told before a program is given.

use crate::outcome::answered;
use std::test::Fail;

/// Texts that are no specification, specifications that are not typed, and such as the rules refuse.
const REFUSED: [(&str, u8, &str); 11] = [
    (
        "spec lost (xs: list as array) : nat\n  ys <- set xs 0 7\n  x <- get xs 0\n  return x\nend\n",
        4,
        "! rule 3 8 get (array, word) gone xs\n",
    ),
    (
        "spec ins (x: nat) : set as bits 1000\n  s <- empty as bits 1000\n  t <- insert s x\n  return t\nend\n",
        4,
        "! rule 3 8 insert (bits 1000, word) fact x 1000\n",
    ),
    (
        "spec u (s: set as bits 1000) : set as bits 1000\n  t <- union s s\n  return t\nend\n",
        4,
        "! rule 2 8 union (bits 1000, bits 1000) twice s\n",
    ),
    ("", 2, "! syntax 1 1\n"),
    (
        "spec a () : nat\n  return 18446744073709551616\nend\n",
        2,
        "! syntax 2 10\n",
    ),
    (
        "spec a () : nat\n  y <- x + 1\n  return y\nend\n",
        3,
        "! type 2 8 unbound x\n",
    ),
    (
        "spec h (xs: list as array kept) : list as array\n  ys <- set xs 0 1\n  return ys\nend\n",
        4,
        "! rule 2 9 set (array, word, word) held xs\n",
    ),
    (
        "spec r () : list as array\n  v <- nil as vec\n  return v\nend\n",
        4,
        "! rule 3 3 return (vec) result 1\n",
    ),
    (
        "spec n () : set as hset\n  s <- empty as hset\n  t <- copy s\n  u <- union s t\n  return u\nend\n",
        4,
        "! rule 4 8 union (hset, hset) missing\n",
    ),
    (
        "spec mixed (xs: list as array, c: bool) : list as array\n  ys <- split xs at 0 left l\n    return l\n  right r\n    q <- if c then\n      return r\n    else\n      d <- copy r\n      return d\n    end\n    return q\n  end\n  return ys\nend\n",
        4,
        "! rule 5 10 if () meet r\n",
    ),
    (
        "spec late (xs: list as array) : (nat, nat)\n  ys <- set xs 0 1\n  (a, b) <- par\n    x <- get xs 0\n    return x\n  and\n    return 0\n  end\n  return (a, b)\nend\n",
        4,
        "! rule 3 13 par () gone xs\n",
    ),
];

#[test]
fn what_is_refused_is_told_alike(rt: HostRuntime) -> Result<(), Fail> {
    for word in ["synth", "run"] {
        let count = answered(rt.alloc(), word, &REFUSED)?;
        assert_eq!(rt; count, REFUSED.len(), "{word}");
    }
    Ok(())
}
