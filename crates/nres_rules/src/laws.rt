//! Laws of the rules. Their functions do nothing; what they ensure is the law.

ghost use Rattle.nres_rules.specs.FlatSamples as flat_samples;
ghost use Rattle.nres_rules.specs.IdentifySamples as identify_samples;
ghost use Rattle.nres_rules.specs.SizeSamples as size_samples;
ghost use Rattle.nres_rules.specs.TypeSamples as type_samples;

/// What the types of small specifications are, and which refusal is the least.
pub fn types_seen()
    ensures { type_samples.Seen }
{}

/// The flat tree of a loop over a set.
pub fn flat_seen()
    ensures { flat_samples.Seen }
{}

/// The typing of the text `first`.
pub fn first_typed()
    ensures { type_samples.FirstTyped }
{}

/// The flat tree of the text `first`.
pub fn first_is_flat()
    ensures { identify_samples.FirstIsFlat }
{}

/// The sizes of small specifications.
pub fn sizes_seen()
    ensures { size_samples.Seen }
{}
