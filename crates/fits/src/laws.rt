//! The laws. Their functions do nothing; what they ensure is the law.

ghost use Rattle.fits.specs.Samples as samples;

/// Programs that are followed by their derivations, and some whose derivations have a line that is not found.
pub fn seen()
    ensures { samples.Seen }
{}
