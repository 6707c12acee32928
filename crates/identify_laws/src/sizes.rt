//! What identification keeps of the size. The functions do nothing; what they ensure is the law.

ghost use Rattle.identify_laws.specs.Laws as laws;

/// A tree with operations for its words is as large as its tree, and its blocks nest as deep.
pub fn sizes_kept()
    ensures { laws.SizesKept }
{}

/// And it has as many loops over sets.
pub fn loops_kept()
    ensures { laws.LoopsKept }
{}
