//! Specifications read, typed, identified and flattened.

use nres_flat::flatten;
use nres_syntax::read_spec;
use nres_types::type_of;
use op_identify::identify;
use std::alloc::Global;
use std::test::Fail;

// How many variables the flat tree of a text has, and how many binds its outermost block has.
fn flat_sizes(alloc: Global, text: &str) -> Result<(usize, usize), Fail> {
    let found = read_spec(alloc, text.as_bytes())?;
    let typing = type_of(alloc, &found.0)?;
    let tree = identify(alloc, &found.0, &typing)?;
    let flat = flatten(alloc, &tree)?;
    Ok((flat.names.len(), flat.body.binds.len()))
}

// The same of a specification with three parameters and these steps, which bind `y`.
fn sizes_of_steps(alloc: Global, steps: &str) -> Result<(usize, usize), Fail> {
    let text = format!(in alloc;
        "spec a (n: nat, xs: list as vec, s: set as hset) : nat {steps} return y end fun f (m: nat) : nat return m end"
    )?;
    flat_sizes(alloc, text.as_str())
}

// Steps with their sizes. Four variables are parameters, the last that of the procedure.
const STEPS: [(&str, (usize, usize)); 12] = [
    ("y <- n", (4, 0)),
    ("y <- (n + 1) * len xs", (7, 3)),
    ("y <- n assert !(n < 1)", (6, 1)),
    ("(y, ys) <- pop xs", (6, 1)),
    ("y <- any 1 (n + 2)", (6, 2)),
    ("y <- call f(n)", (5, 1)),
    ("y <- if n < 3 then return n else return 1 end", (6, 2)),
    ("(y, z) <- par return n and w <- n + 1 return w end", (7, 1)),
    ("y <- either return n or return 2 end", (5, 1)),
    (
        "(ys, y, z) <- split xs at 1 left l k <- len l return (l, k) right r return (r, 2) end",
        (10, 1),
    ),
    ("y <- while i from n if i < 3 do return i + 1 end", (8, 1)),
    // The elements, their number, `i`, the index, its test, `x`, `x + 1`, the next index, `y`, the last index.
    (
        "y <- foreach x in s (i) from n do return x + 1 end",
        (14, 3),
    ),
];

// How many of the first steps have these sizes.
fn sized(alloc: Global) -> Result<usize, Fail> {
    for (at, case) in STEPS.iter().enumerate() {
        if sizes_of_steps(alloc, case.0)? != case.1 {
            return Ok(at);
        }
    }
    Ok(STEPS.len())
}

#[test]
fn each_form_of_body_is_flattened(rt: HostRuntime) -> Result<(), Fail> {
    let count = sized(rt.alloc())?;
    assert_eq!(rt; count, STEPS.len());
    Ok(())
}

// The sizes of so many steps that each use the one before.
fn sizes_of_many(alloc: Global, count: usize) -> Result<(usize, usize), Fail> {
    let mut steps = String::from_str(alloc, "y <- n + 1")?;
    for _ in 1..count {
        steps.push_str(" y <- y + 1")?;
    }
    sizes_of_steps(alloc, steps.as_str())
}

#[test]
fn many_steps_are_flattened(rt: HostRuntime) -> Result<(), Fail> {
    let found = sizes_of_many(rt.alloc(), 10_000)?;
    assert!(rt; found == (10_004, 10_000));
    Ok(())
}
