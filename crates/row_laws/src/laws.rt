//! Laws of rows. Their functions do nothing; what they ensure is the law.

ghost use Rattle.row_laws.specs.Calls.{NamesHeld, RowUse};
ghost use Rattle.row_laws.specs.Laws as laws;

/// What the relation says of a piece is what the procedures' laws say of it.
pub fn bridge()
    ensures { laws.Bridge }
{}

/// A call of a row's procedure, on arguments as its law has them, is safe for every number of steps at any depth of forks,
/// ends within the bound, and claims no more than the law allows.
pub fn calls()
    ensures { RowUse }
{}

/// The names of blocks of which a lawful heap holds something are words.
pub fn names()
    ensures { NamesHeld }
{}
