//! The laws. Each function does nothing; its contract is the law.

ghost use Rattle.unfit_line.specs.Samples as samples;
ghost use Rattle.unfit_line.specs.UnfitLine.{LineIsTold};

/// A program passes the test with a number of branches exactly where it stands as a whole with as many; the line that is
/// told of it is none exactly where it fits, and else the only one that it may be told.
pub fn the_line_is_told()
    ensures { LineIsTold }
{}

/// Programs that fit small specifications, and some that are told a line.
pub fn seen()
    ensures { samples.Seen }
{}
