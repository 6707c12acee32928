//! The law. Its function does nothing; what it ensures is the law.

ghost use Rattle.start_ends.specs.Laws as laws;

/// A program whose `main`, on all that represents inputs, is safe and ends with what some path of a flat tree gives, is
/// sound for the flat tree; and its runs are bounded where a number that no value decides bounds those of `main`.
pub fn paths_suffice()
    ensures sound { laws.PathsSound }
    ensures bounded { laws.PathsBounded }
{}
