//! Laws of branches. Their functions do nothing; what they ensure is the law.

ghost use Rattle.range_split.specs.Faults.{ParRefused, SplitRefused};

/// What `par` is refused for is what the rule check refuses it for.
pub fn par_refused()
    ensures { ParRefused }
{}

/// What `split` is refused for is what the rule check refuses it for.
pub fn split_refused()
    ensures { SplitRefused }
{}
