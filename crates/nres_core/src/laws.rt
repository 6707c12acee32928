//! Laws of specifications. Their functions do nothing; what they ensure is the law.

ghost use Rattle.nres_core.specs.Mirrors as mirrors;
ghost use Rattle.nres_core.specs.Operations as operations;
ghost use Rattle.nres_core.specs.Samples as samples;
ghost use Rattle.nres_core.specs.Sizes as sizes;

/// The text `first` has its tree.
pub fn first_has_tree()
    ensures { samples.FirstHasTree }
{}

/// The tree of a text as plain data, constructor by constructor.
pub fn spec_mirrored()
    ensures { mirrors.SpecMirrored }
{}

/// So it is of the tree whose words stand for operations.
pub fn identified_mirrored()
    ensures { mirrors.IdentifiedMirrored }
{}

/// So it is of the flat tree.
pub fn flat_mirrored()
    ensures { mirrors.FlatMirrored }
{}

/// A tree is no larger than its text: its size is at most the number of tokens, and its blocks nest no deeper than blocks may be open.
pub fn no_larger_than_its_text()
    ensures { sizes.NoLargerThanItsText }
{}

/// So it is with each loop over a set counted once more: that sum too is at most the number of tokens.
pub fn no_larger_with_its_loops()
    ensures { sizes.NoLargerWithItsLoops }
{}

/// The operations of each word are those of their types: for the type of a first argument one that takes such a value, and as many
/// values as the others; for the type of a representation one that makes such a container.
pub fn words_fit()
    ensures { operations.WordsFit }
{}
