//! Specifications with branches are not served yet.

use crate::outcome::answered;
use std::test::Fail;

/// Specifications with `par` or `split`.
const BRANCHES: [(&str, u8, &str); 4] = [
    (
        "spec halves (xs: list as array, k: nat) : (list as array, nat, nat)\n  (ys, a, b) <- split xs at k left l\n    n <- len l\n    return (l, n)\n  right r\n    m <- len r\n    return (r, m)\n  end\n  return (ys, a, b)\nend\nwith xs = [4, 5, 6]\nwith k = 0\n",
        40,
        "! not yet\n",
    ),
    (
        "spec pair (xs: list as array, ys: list as array) : (list as array, list as array)\n  (a, b) <- par\n    p <- set xs 0 9\n    return p\n  and\n    q <- set ys 0 8\n    return q\n  end\n  return (a, b)\nend\nwith xs = [1, 2]\nwith ys = [3]\n",
        40,
        "! not yet\n",
    ),
    (
        "spec two (xs: list as array kept) : (nat, nat)\n  (a, b) <- par\n    x <- get xs 0\n    return x\n  and\n    y <- get xs 1\n    return y\n  end\n  return (a, b)\nend\nwith xs = [4, 5]\n",
        40,
        "! not yet\n",
    ),
    (
        "spec sums (xs: list as array) : (list as array, nat)\n  (ys, s) <- call tree(xs)\n  return (ys, s)\nend\nfun tree (l: list as slice) : (list as slice, nat)\n  n <- len l\n  (m, s) <- if n < 2 then\n    t <- if n == 0 then\n      return 0\n    else\n      x <- get l 0\n      return x\n    end\n    return (l, t)\n  else\n    (k, p, q) <- split l at n / 2 left u\n      (v, a) <- call tree(u)\n      return (v, a)\n    right w\n      (v, a) <- call tree(w)\n      return (v, a)\n    end\n    return (k, p + q)\n  end\n  return (m, s)\nend\nwith xs = [3, 1, 4, 1, 5]\n",
        40,
        "! not yet\n",
    ),
];

#[test]
fn branches_are_not_served_yet(rt: HostRuntime) -> Result<(), Fail> {
    for word in ["synth", "run"] {
        let count = answered(rt.alloc(), word, &BRANCHES)?;
        assert_eq!(rt; count, BRANCHES.len(), "{word}");
    }
    Ok(())
}
