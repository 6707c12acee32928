//! The law. Its function does nothing; what it ensures is the law.

ghost use Rattle.fits_more.specs.More.{MoreFollow};

/// A derivation that is followed with the procedures of a program is followed to the same end with any list in which each
/// of them is found.
pub fn more_follow()
    ensures { MoreFollow }
{}
