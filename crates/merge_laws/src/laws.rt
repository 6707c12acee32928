//! Laws of sides. The functions do nothing; what they ensure is the law.

ghost use Rattle.merge_laws.specs.Laws as side_laws;

/// Two sides of an `if` that passed meet by the places that went in them.
pub fn sides_meet()
    ensures { side_laws.SidesMeet }
{}

/// The entries after the side of `either` that was taken are those from before, where what went in it goes.
pub fn side_taken()
    ensures { side_laws.SideTaken }
{}

/// What a block leaves of the entries from before it is that the places that went in it go.
pub fn block_leaves()
    ensures { side_laws.BlockLeaves }
{}
