//! The laws. Each function does nothing; its contract is the law.

ghost use Rattle.fits_fewer.specs.FitsFewer.{FitsFewer, TypedAreBalanced};
ghost use Rattle.soundness.specs.Behaviour.{of_flat};
ghost use Rattle.soundness.specs.Bound.{IsBoundedFor};
ghost use Rattle.soundness.specs.Sound.{FlatSound};

/// A program that fits a specification, whose procedures are some of a list with which the rows are sound.
pub trait FitsWithFewer {
    ghost fitted: { Self → FitsFewer };
}

/// A program that fits a specification and is closed under its calls is sound for it, and its runs are bounded wherever the
/// specification's paths end, where the rows are sound with some longer list in which its procedures are found.
pub fn fits_with_fewer<P: FitsWithFewer>()
    ensures sound { (x : P) → FlatSound (P.fitted x).text (P.fitted x).program }
    ensures bounded { (x : P) → IsBoundedFor (of_flat (P.fitted x).text) (P.fitted x).program }
{}

/// The procedures of a typed flat tree give as many slices as they take over.
pub fn typed_are_balanced()
    ensures { TypedAreBalanced }
{}
