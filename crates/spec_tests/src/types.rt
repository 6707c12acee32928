//! What is not typed.

use crate::runs::answered;
use std::test::Fail;

// One text for each kind of rule, with its line.
const FAULTS: [(&str, u8, &str); 7] = [
    (
        "spec a () : nat\n  y <- x + 1\n  return y\nend\n",
        3,
        "! type 2 8 unbound x\n",
    ),
    (
        "spec first (xs: list as array kept) : nat\n  x <- get ys 0\n  return x\nend\n",
        3,
        "! type 2 12 unbound ys\n",
    ),
    (
        "spec a () : nat\n  return true\nend\n",
        3,
        "! type 2 10 mismatch nat bool\n",
    ),
    (
        "spec a () : nat\n  return (1, 2)\nend\n",
        3,
        "! type 2 3 arity 1 2\n",
    ),
    (
        "spec a () : nat\n  x <- copy 1\n  return x\nend\n",
        3,
        "! type 2 8 no operation copy nat\n",
    ),
    (
        "spec a () : nat\n  return 1\nend\nfun f () : nat\n  return 1\nend\nfun f () : nat\n  return 1\nend\n",
        3,
        "! type 7 5 duplicate f\n",
    ),
    (
        "spec a (xs: list as bits 1000) : nat\n  return 1\nend\n",
        3,
        "! type 1 21 representation bits 1000\n",
    ),
];

#[test]
fn the_first_broken_rule_is_told(rt: HostRuntime) -> Result<(), Fail> {
    for word in ["check", "synth", "eval", "run"] {
        let count = answered(rt.alloc(), word, &FAULTS)?;
        assert_eq!(rt; count, FAULTS.len(), "{word}");
    }
    Ok(())
}
