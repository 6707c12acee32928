//! The law. Its function does nothing; its contract is the law.

ghost use Rattle.fits_text.specs.FitsText.{FitsText};
ghost use Rattle.soundness.specs.Behaviour.{of_spec};
ghost use Rattle.soundness.specs.Bound.{IsBoundedFor};
ghost use Rattle.soundness.specs.Sound.{Sound};

/// A program that fits the flat tree of a typed text.
pub trait Fits {
    ghost fitted: { Self → FitsText };
}

/// A program that fits the flat tree of a typed text, with the library's procedures as they are, and each of whose calls
/// finds a procedure, is sound for the text's specification: from each start in whose values nothing can fail it is safe
/// under every interleaving, and ends only with results that the specification allows. And its runs are bounded wherever
/// the specification ends.
pub fn fitting_texts_are_sound<P: Fits>()
    ensures sound { (x : P) → Sound (P.fitted x).spec (P.fitted x).program }
    ensures bounded { (x : P) → IsBoundedFor (of_spec (P.fitted x).spec) (P.fitted x).program }
{}
