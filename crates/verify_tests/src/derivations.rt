//! Derivations that were written by hand, and the same with one field of one line changed.

use crate::outcome::told;
use crate::texts::{DEDUP, DOWN, HALVES, LEFT, PAIR, RIGHT};
use std::test::Fail;

#[test]
fn derivations_by_hand_are_verified(rt: HostRuntime) -> Result<(), Fail> {
    for text in [DEDUP, LEFT, RIGHT, DOWN] {
        let count = told(rt.alloc(), text, 0, &[(text.2, "ok\n")])?;
        assert_eq!(rt; count, 1);
    }
    Ok(())
}

#[test]
fn a_loop_with_a_field_changed_is_told(rt: HostRuntime) -> Result<(), Fail> {
    let cases = [
        (
            "row bits_has\nreg\nwhile r6, r4, r5\ncalc\nrow array_get\nrow bits_insert\ncalc\n",
            "! no proof 1\n",
        ),
        (
            "row bits_empty\ncalc\nwhile r6, r4, r5\ncalc\nrow array_get\nrow bits_insert\ncalc\n",
            "! no proof 2\n",
        ),
        (
            "row bits_empty\nreg\nwhile r6, r5, r4\ncalc\nrow array_get\nrow bits_insert\ncalc\n",
            "! no proof 3\n",
        ),
        (
            "row bits_empty\nreg\nwhile r6, r4\ncalc\nrow array_get\nrow bits_insert\ncalc\n",
            "! no proof 3\n",
        ),
        (
            "row bits_empty\nreg\nwhile r6, r4, r5\nreg\nrow array_get\nrow bits_insert\ncalc\n",
            "! no proof 4\n",
        ),
        (
            "row bits_empty\nreg\nwhile r6, r4, r5\ncalc\nrow array_set\nrow bits_insert\ncalc\n",
            "! no proof 5\n",
        ),
        (
            "row bits_empty\nreg\nwhile r6, r4, r5\ncalc\nrow array_get\nrow bits_remove\ncalc\n",
            "! no proof 6\n",
        ),
        (
            "row bits_empty\nreg\nwhile r6, r4, r5\ncalc\nrow array_get\nrow bits_insert\ncalc r6\n",
            "! no proof 7\n",
        ),
    ];
    let count = told(rt.alloc(), DEDUP, 16, &cases)?;
    assert_eq!(rt; count, cases.len());
    Ok(())
}

#[test]
fn a_procedure_with_a_field_changed_is_told(rt: HostRuntime) -> Result<(), Fail> {
    let cases = [
        ("calc\ncalc\nif r3\ncalc\nuse\ncalc\n", "! no proof 1\n"),
        ("use\nuse\nif r3\ncalc\nuse\ncalc\n", "! no proof 2\n"),
        ("use\ncalc\nwhile r3\ncalc\nuse\ncalc\n", "! no proof 3\n"),
        // The line stands, and the end of the first side does not.
        ("use\ncalc\nif r4\ncalc\nuse\ncalc\n", "! no proof 4\n"),
        ("use\ncalc\nif\ncalc\nuse\ncalc\n", "! no proof 4\n"),
        ("use\ncalc\nif r3\nany r0\nuse\ncalc\n", "! no proof 4\n"),
        ("use\ncalc\nif r3\ncalc\nreg\ncalc\n", "! no proof 5\n"),
        ("use\ncalc\nif r3\ncalc\nuse\nuse\n", "! no proof 6\n"),
    ];
    let count = told(rt.alloc(), DOWN, 16, &cases)?;
    assert_eq!(rt; count, cases.len());
    Ok(())
}

#[test]
fn the_other_side_is_told(rt: HostRuntime) -> Result<(), Fail> {
    let left = [
        ("right\ncalc\n", "! no proof 2\n"),
        ("calc\nleft\n", "! no proof 1\n"),
    ];
    let count = told(rt.alloc(), LEFT, 16, &left)?;
    assert_eq!(rt; count, left.len());
    let right = [
        ("left\ncalc\n", "! no proof 2\n"),
        ("left\n", "! no proof 2\n"),
    ];
    let count = told(rt.alloc(), RIGHT, 16, &right)?;
    assert_eq!(rt; count, right.len());
    Ok(())
}

#[test]
fn branches_are_not_served_yet(rt: HostRuntime) -> Result<(), Fail> {
    for text in [PAIR, HALVES] {
        let count = told(rt.alloc(), text, 40, &[(text.2, "! not yet\n")])?;
        assert_eq!(rt; count, 1);
    }
    Ok(())
}
