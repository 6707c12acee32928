//! What identification keeps of the meaning. The functions do nothing; what they ensure is the law.

ghost use Rattle.identify_laws.specs.Laws as laws;
ghost use Rattle.identify_laws.specs.MeaningSamples as samples;

/// A typed block with operations for its words gives and fails as it does with its words, whatever values of their types its names have.
pub fn identified_blocks_keep()
    ensures { laws.IdentifiedBlocksKeep }
{}

/// A tree with operations for its words gives and fails as the typed tree of its text does.
pub fn identification_keeps()
    ensures { laws.IdentificationKeeps }
{}

/// A text takes elements out by `pop` and `take_min` alone.
pub fn texts_take()
    ensures { laws.TextsTake }
{}

/// Words that are read and that are not, and values of a type and of another.
pub fn seen()
    ensures { samples.Seen }
{}
