//! The laws. Each function does nothing; its contract is the law.

ghost use Rattle.fits_sound.specs.Fitted.{Fitted, IsBounded, IsSafe};
ghost use Rattle.fits_sound.specs.FitsWhole.{FitsWhole};
ghost use Rattle.soundness.specs.Behaviour.{of_flat};
ghost use Rattle.soundness.specs.Bound.{IsBoundedFor};
ghost use Rattle.soundness.specs.Sound.{FlatSound};

/// A stretch of code that fits binds, in a program whose rows are sound and whose procedures fit those of a text.
pub trait Fits {
    ghost fitted: { Self → Fitted };
}

/// Code that fits binds does what they mean. Where registers and piece are as they are known, and no path of the binds
/// fails, it is safe for every number of steps, and ends only where some path comes to the values that registers and
/// piece then stand for. And to each limit on the turns of loops belongs a number of steps, chosen before any value, after
/// which it is over so, wherever no path fails or passes the limit.
pub fn what_fits_is_sound<C: Fits>()
    ensures safe { (x : C) → IsSafe (C.fitted x) }
    ensures bounded { (x : C) → IsBounded (C.fitted x) }
{}

/// A program that fits a specification and its procedures, with rows that are sound.
pub trait FitsText {
    ghost fitted: { Self → FitsWhole };
}

/// A program that fits a specification is sound for it: from each start on whose values nothing can fail, with whatever
/// capacity, every schedule under which no leaf lies below more than 64 forks reaches a state in which no leaf is stuck, no
/// two race and none is unowned, and which is good where it has ended. And where each path of the specification ends, no
/// such schedule is longer than a bound, and a state at rest is good or full.
pub fn fitting_programs_are_sound<P: FitsText>()
    ensures sound { (x : P) → FlatSound (P.fitted x).text (P.fitted x).program }
    ensures bounded { (x : P) → IsBoundedFor (of_flat (P.fitted x).text) (P.fitted x).program }
{}
