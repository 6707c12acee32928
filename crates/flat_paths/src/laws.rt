//! Laws of paths. Their functions do nothing; what they ensure is the law.

ghost use Rattle.flat_paths.specs.Laws as laws;

/// What a flat specification allows, where it fails, and where it begins a turn or a call too many, is what its paths come
/// to, and only that.
pub fn meant_by_paths()
    ensures { laws.MeantByPaths }
{}

/// A procedure's path, inside one call more, is a path of its call.
pub fn calls_come()
    ensures { laws.CallsCome }
{}
