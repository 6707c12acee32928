//! The law. Its function does nothing; its contract is the law.

ghost use Rattle.fits_promise.specs.Promise.{FitsTyped, IsFormed, HasItsShape, HasItsSides, IsSound, IsBounded};

/// A typed text, and a program that fits its flat tree as a whole by a derivation.
pub trait Typed {
    ghost fitted: { Self → FitsTyped };
}

/// A program that fits a typed text as a whole is formed, and has the shape of the text's specification; where the sides
/// that the derivation takes are those of a choice, it has these. It is sound for the specification: from each start in
/// whose values nothing can fail it is safe under every interleaving, and ends only with results that the specification
/// allows. And its runs are bounded wherever the specification ends.
pub fn what_fits_is_right<P: Typed>()
    ensures formed { (x : P) → IsFormed (P.fitted x) }
    ensures shape { (x : P) → HasItsShape (P.fitted x) }
    ensures made { (x : P) → HasItsSides (P.fitted x) }
    ensures sound { (x : P) → IsSound (P.fitted x) }
    ensures bounded { (x : P) → IsBounded (P.fitted x) }
{}
