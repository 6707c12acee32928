//! What flattening keeps of the meaning. The functions do nothing; what they ensure is the law.

ghost use Rattle.flatten_laws.specs.Laws as laws;
ghost use Rattle.flatten_laws.specs.MeaningSamples as samples;

/// A flat block gives and fails as its block does, whatever values its names have.
pub fn flat_blocks_keep()
    ensures { laws.FlatBlocksKeep }
{}

/// A flat tree gives and fails as its tree does.
pub fn flattening_keeps()
    ensures { laws.FlatteningKeeps }
{}

/// Where each list that is split is a variable, a block behind its parameters has as many variables as its binds bind.
pub fn numbered_are_counted()
    ensures { laws.NumberedAreCounted }
{}

/// A typed tree with operations for its words is served.
pub fn trees_are_served()
    ensures { laws.TreesAreServed }
{}

/// So is one that is identified from the typed tree of a text.
pub fn typed_are_served()
    ensures { laws.TypedAreServed }
{}

/// The flat tree of a typed specification allows what the specification does, can fail where it can, and ends where it does.
pub fn meaning_kept()
    ensures { laws.MeaningKept }
{}

/// Small trees that are served and that are not.
pub fn seen()
    ensures { samples.Seen }
{}
