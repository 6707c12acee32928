//! Laws of the canonical text. Their functions do nothing; what they ensure is the law.

ghost use Rattle.nres_print.specs.Alike as alike;
ghost use Rattle.nres_print.specs.ReadsBack as back;
ghost use Rattle.nres_print.specs.Samples as samples;

/// The tree of the text `first` has this text.
pub fn first_printed()
    ensures { samples.FirstPrinted }
{}

/// The text of a specification shows no place: trees that differ in places alone have the same text.
pub fn no_place_shown()
    ensures { alike.NoPlaceShown }
{}

/// What is printed reads back: of each tree of the grammar, places aside, the text is within the limits of the grammar, and has a tree that
/// differs in places alone.
pub fn reads_back()
    ensures { back.ReadsBack }
{}
