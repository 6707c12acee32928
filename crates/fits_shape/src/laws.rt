//! The laws. Each function does nothing; its contract is the law.

ghost use Rattle.fits_shape.specs.Fits.{HaveShape, UnfitDoNotFit};
ghost use Rattle.fits_shape.specs.Trees.{HaveTrees};

/// What is followed has the trees of its specification: the tree of the specification equals that of `main`, and the tree
/// of each procedure of the text that of its procedure of the program, with the branches in text order; where the
/// derivation takes sides that may be taken, these are the sides of the trees.
pub fn what_fits_has_its_trees()
    ensures { HaveTrees }
{}

/// A program that fits a specification, over a table whose rows are named after their operations, has the shape of the
/// specification, and where the derivation takes certain sides, it has these.
pub fn what_fits_has_the_shape()
    ensures { HaveShape }
{}

/// A program that is told a line does not fit.
pub fn told_programs_do_not_fit()
    ensures { UnfitDoNotFit }
{}
