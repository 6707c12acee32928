//! The laws. Their functions do nothing; what they ensure is the law.

ghost use Rattle.side_laws.specs.Sides.{LeftOfSide, LentSame, SidesAlike};

/// The entries from before a block are those of the state where it ended, and those where the places that went in it go.
pub fn left_of_a_side()
    ensures { LeftOfSide }
{}

/// Two sides hold all from before the same where no place that went on one may still be used up on the other.
pub fn sides_alike()
    ensures { SidesAlike }
{}

/// What was lent is held as before behind each block.
pub fn lent_the_same()
    ensures { LentSame }
{}
