//! The laws. Their functions do nothing; what they ensure is the law.

ghost use Rattle.prints.specs.Samples as samples;

/// Programs that are printed, and specifications that are refused.
pub fn seen()
    ensures { samples.Seen }
{}
