//! Programs with forks.

use crate::ends::{LEFT, Outcome, Place, RIGHT, ROOT, ends};
use std::test::Fail;

/// Forks into two branches that end at once.
const TWICE: &[u8] =
    b"sepref 1\nout word\nproc main 0 2\n  par r0 = w() hand [] | r1 = w() hand []\n  ret r0\nend\nproc w 0 1\n  ret r0\nend\n";

/// Forks for ever in the left branch.
const NEST: &[u8] =
    b"sepref 1\nout word\nproc main 0 2\n  par r0 = main() hand [] | r1 = w() hand []\n  ret r0\nend\nproc w 0 1\n  ret r0\nend\n";

/// Loops for ever in the left branch.
const SPIN_LEFT: &[u8] =
    b"sepref 1\nout word\nproc main 0 2\n  par r0 = spin() hand [] | r1 = w() hand []\n  ret r0\nend\nproc spin 0 1\n  r0 = const 1\n  while\n  do r0\n  end\n  ret r0\nend\nproc w 0 1\n  ret r0\nend\n";

/// Writes a word in both branches, which neither of them gets.
const RACE: &[u8] =
    b"sepref 1\nout word\nproc main 0 4\n  r0 = const 1\n  r1 = alloc r0\n  par r2 = w(r1) hand [] | r3 = w(r1) hand []\n  free r1\n  ret r2\nend\nproc w 1 2\n  r1 = const 0\n  store r0 r1 r1\n  ret r1\nend\n";

/// Reads a lent word in both branches.
const LENT: &[u8] =
    b"sepref 2\nout word\nproc main 0 4\n  r0 = const 1\n  r1 = alloc r0\n  par r2 = v(r1) hand [] lend [r1] | r3 = v(r1) hand [] lend [r1]\n  free r1\n  ret r2\nend\nproc v 1 3\n  r1 = const 0\n  r2 = load r0 r1\n  ret r2\nend\nproc w 1 3\n  r1 = const 0\n  store r0 r1 r1\n  ret r1\nend\n";

/// Writes it in the left branch.
const LENT_WRITTEN: &[u8] =
    b"sepref 2\nout word\nproc main 0 4\n  r0 = const 1\n  r1 = alloc r0\n  par r2 = w(r1) hand [] lend [r1] | r3 = v(r1) hand [] lend [r1]\n  free r1\n  ret r2\nend\nproc v 1 3\n  r1 = const 0\n  r2 = load r0 r1\n  ret r2\nend\nproc w 1 3\n  r1 = const 0\n  store r0 r1 r1\n  ret r1\nend\n";

/// Lends a word to the left branch, and hands what is left of it to the right one, which writes it.
const LENT_HANDED: &[u8] =
    b"sepref 2\nout word\nproc main 0 4\n  r0 = const 1\n  r1 = alloc r0\n  par r2 = v(r1) hand [] lend [r1] | r3 = w(r1) hand [r1] lend []\n  free r1\n  ret r2\nend\nproc v 1 3\n  r1 = const 0\n  r2 = load r0 r1\n  ret r2\nend\nproc w 1 3\n  r1 = const 0\n  store r0 r1 r1\n  ret r1\nend\n";

/// Lends what is lent on, then writes it and frees it.
const LENT_ON: &[u8] =
    b"sepref 2\nout word\nproc main 0 4\n  r0 = const 1\n  r1 = alloc r0\n  par r2 = v(r1) hand [] lend [r1] | r3 = v(r1) hand [] lend [r1]\n  store r1 r2 r0\n  free r1\n  ret r3\nend\nproc v 1 4\n  r1 = const 0\n  par r2 = w(r0) hand [] lend [r0] | r3 = w(r0) hand [] lend [r0]\n  ret r2\nend\nproc w 1 3\n  r1 = const 0\n  r2 = load r0 r1\n  ret r2\nend\n";

/// Hands the halves of a block of four words to the branches, each of which writes its two.
const HALVES: &[u8] =
    b"sepref 1\nout word\nproc main 0 8\n  r0 = const 4\n  r1 = alloc r0\n  r2 = const 0\n  r3 = const 2\n  par r4 = fill(r1, r2) hand [r1 from r2 for r3] | r5 = fill(r1, r3) hand [r1 from r3 for r3]\n  r6 = const 3\n  r7 = load r1 r6\n  free r1\n  ret r7\nend\nproc fill 2 4\n  r2 = const 1\n  r3 = add r1 r2\n  store r0 r1 r1\n  store r0 r3 r3\n  ret r3\nend\n";

/// Writes the right half in the left branch.
const WRONG_HALF: &[u8] =
    b"sepref 1\nout word\nproc main 0 8\n  r0 = const 4\n  r1 = alloc r0\n  r2 = const 0\n  r3 = const 2\n  par r4 = fill(r1, r3) hand [r1 from r2 for r3] | r5 = fill(r1, r3) hand [r1 from r3 for r3]\n  ret r4\nend\nproc fill 2 4\n  r2 = const 1\n  r3 = add r1 r2\n  store r0 r1 r1\n  store r0 r3 r3\n  ret r3\nend\n";

/// Hands a block to both branches.
const HANDED_TWICE: &[u8] =
    b"sepref 1\nout word\nproc main 0 4\n  r0 = const 1\n  r1 = alloc r0\n  par r2 = w(r1) hand [r1] | r3 = w(r1) hand [r1]\n  ret r2\nend\nproc w 1 2\n  ret r1\nend\n";

/// Hands the word 2 of a block twice to one branch.
const MEETING: &[u8] =
    b"sepref 1\nout word\nproc main 0 5\n  r0 = const 4\n  r1 = alloc r0\n  r4 = const 2\n  par r2 = w(r1) hand [r1 from r4 for r4, r1 from r4 for r4] | r3 = w(r1) hand []\n  ret r2\nend\nproc w 1 2\n  ret r1\nend\n";

/// Makes a block in each branch.
const MAKES: &[u8] =
    b"sepref 1\nout word\nproc main 0 4\n  par r0 = make() hand [] | r1 = make() hand []\n  r2 = add r0 r1\n  free r0\n  free r1\n  ret r2\nend\nproc make 0 2\n  r0 = const 1\n  r1 = alloc r0\n  ret r1\nend\n";

#[test]
fn a_fork_and_its_join_are_steps(rt: HostRuntime) -> Result<(), Fail> {
    assert_eq!(rt;
        ends(rt.alloc(), TWICE, 4, 16)?,
        Outcome::Done { first: 0, steps: 4 }
    );
    assert_eq!(rt; ends(rt.alloc(), TWICE, 3, 16)?, Outcome::OutOfSteps(ROOT));
    assert_eq!(rt; ends(rt.alloc(), TWICE, 2, 16)?, Outcome::OutOfSteps(ROOT));
    Ok(())
}

#[test]
fn forks_nest_64_deep(rt: HostRuntime) -> Result<(), Fail> {
    let deepest = Place {
        forks: 64,
        rights: 0,
    };
    assert_eq!(rt;
        ends(rt.alloc(), NEST, 100_000, 16)?,
        Outcome::Depth(deepest)
    );
    Ok(())
}

#[test]
fn a_branch_runs_out_of_steps(rt: HostRuntime) -> Result<(), Fail> {
    assert_eq!(rt;
        ends(rt.alloc(), SPIN_LEFT, 1_000, 16)?,
        Outcome::OutOfSteps(LEFT)
    );
    Ok(())
}

fn writes_the_word(place: Place) -> Outcome {
    Outcome::Unowned {
        place,
        letter: b'w',
        line: 2,
        block: 1,
        offset: 0,
    }
}

#[test]
fn what_no_branch_gets_is_unowned(rt: HostRuntime) -> Result<(), Fail> {
    assert_eq!(rt; ends(rt.alloc(), RACE, 100, 16)?, writes_the_word(LEFT));
    Ok(())
}

#[test]
fn a_lent_word_is_read_and_not_written(rt: HostRuntime) -> Result<(), Fail> {
    assert_eq!(rt;
        ends(rt.alloc(), LENT, 100, 16)?,
        Outcome::Done { first: 0, steps: 9 }
    );
    assert_eq!(rt;
        ends(rt.alloc(), LENT_WRITTEN, 100, 16)?,
        writes_the_word(LEFT)
    );
    assert_eq!(rt;
        ends(rt.alloc(), LENT_HANDED, 100, 16)?,
        writes_the_word(RIGHT)
    );
    Ok(())
}

#[test]
fn what_was_lent_on_comes_back_whole(rt: HostRuntime) -> Result<(), Fail> {
    assert_eq!(rt;
        ends(rt.alloc(), LENT_ON, 100, 16)?,
        Outcome::Done {
            first: 0,
            steps: 14
        }
    );
    Ok(())
}

#[test]
fn branches_write_their_halves(rt: HostRuntime) -> Result<(), Fail> {
    let other_half = Outcome::Unowned {
        place: LEFT,
        letter: b'f',
        line: 3,
        block: 1,
        offset: 2,
    };
    assert_eq!(rt;
        ends(rt.alloc(), HALVES, 100, 16)?,
        Outcome::Done {
            first: 3,
            steps: 15
        }
    );
    assert_eq!(rt; ends(rt.alloc(), WRONG_HALF, 100, 16)?, other_half);
    Ok(())
}

#[test]
fn parts_that_cannot_be_given_are_unowned(rt: HostRuntime) -> Result<(), Fail> {
    let handed = Outcome::Unowned {
        place: ROOT,
        letter: b'm',
        line: 3,
        block: 1,
        offset: 0,
    };
    let meeting = Outcome::Unowned {
        place: ROOT,
        letter: b'm',
        line: 4,
        block: 1,
        offset: 2,
    };
    assert_eq!(rt; ends(rt.alloc(), HANDED_TWICE, 100, 16)?, handed);
    assert_eq!(rt; ends(rt.alloc(), MEETING, 100, 16)?, meeting);
    Ok(())
}

#[test]
fn branches_draw_names_from_left_to_right(rt: HostRuntime) -> Result<(), Fail> {
    assert_eq!(rt;
        ends(rt.alloc(), MAKES, 100, 4)?,
        Outcome::Done { first: 4, steps: 9 }
    );
    assert_eq!(rt;
        ends(rt.alloc(), MAKES, 100, 3)?,
        Outcome::Full { at: 2, len: 1 }
    );
    Ok(())
}
