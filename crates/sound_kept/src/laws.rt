//! Laws of flat trees and soundness. Their functions do nothing; what they ensure is the law.

ghost use Rattle.sound_kept.specs.Laws as laws;

/// A value that registers and a piece represent is of the representation's type.
pub fn represented_are_typed()
    ensures { laws.RepresentedAreTyped }
{}

/// On the inputs that a program with the text's parameters can be given, the flat tree of a typed text asks no less of it
/// than the text does.
pub fn flat_tree_refines()
    ensures { laws.FlatTreeRefines }
{}

/// A program that is sound for the flat tree of a typed text is sound for the text, and its runs have the same bounds.
pub fn soundness_is_kept()
    ensures sound { laws.SoundKept }
    ensures bounded { laws.BoundsKept }
{}
