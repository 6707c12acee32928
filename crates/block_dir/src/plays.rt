//! The rule of the table, and what each kind of step tells its caller.
ghost use Rattle.block_dir.specs.Steps.{sounding, claimed, freed, loaded, stored, marking, looked};
ghost use Rattle.block_dir.specs.Views.{left_view, right_view, met, spent_view};

use crate::mark::Mark;
use crate::view::View;
use atomic_table::{Join, Play, Split, TableRule};

pub(crate) struct Rule;

impl TableRule<Mark, View, u64> for Rule {
    ghost use Rattle.block_dir.specs.Rule.{Ruled};
    ghost use Rattle.block_dir.specs.Views.{opening_view};

    ghost holds = { Ruled };

    ghost first = { opening_view };
}

// A claim at the seat's position.
pub(crate) struct Claims;

impl Play<Mark, View> for Claims {
    ghost then = { sounding claimed };
}

// A release of a block that is held whole.
pub(crate) struct Frees;

impl Play<Mark, View> for Frees {
    ghost then = { sounding freed };
}

// A load of a word that is held.
pub(crate) struct Reads;

impl Play<Mark, View> for Reads {
    ghost then = { sounding loaded };
}

// A store to a word that is held whole.
pub(crate) struct Writes;

impl Play<Mark, View> for Writes {
    ghost then = { sounding stored };
}

// A step on word 0 that marks a part for the next split.
pub(crate) struct Marks;

impl Play<Mark, View> for Marks {
    ghost then = { sounding marking };
}

// A load of word 0, by which a seat learns what the rule says of its view.
pub(crate) struct Looks;

impl Play<Mark, View> for Looks {
    ghost then = { sounding looked };
}

// The left side keeps what is not marked, and the right side gets what is.
pub(crate) struct Sides;

impl Split<View> for Sides {
    ghost left = { left_view };

    ghost right = { right_view };
}

// The one seat gets what both had.
pub(crate) struct Both;

impl Join<View> for Both {
    ghost both = { met };

    ghost spent = { spent_view };
}
