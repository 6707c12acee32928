//! Laws of all layouts. Their functions do nothing; what they ensure is the law.

ghost use Rattle.layout_facts.specs.Laws as laws;

/// What represents a value has exactly the contents of a footprint: nothing, a block, or a range of one.
pub fn footprints()
    ensures { laws.HaveFootprints }
{}

/// There are as many registers as the representation has; numbers and truth values hold nothing; and the shares do not
/// matter, so that both halves of a piece represent what it does.
pub fn shares_do_not_matter()
    ensures { laws.AllHave }
{}

/// The piece of a container lies in the part that its registers name and fills it: it can be handed, and lent where no
/// share is less than 2.
pub fn containers_fill_their_parts()
    ensures { laws.ContainersHave }
{}

/// A container that is no slice is one block; where it is held whole it can be freed.
pub fn containers_are_blocks()
    ensures one { laws.ContainersAreBlocks }
    ensures owned { laws.WholeBlocks }
{}

/// Blocks and ranges of layouts are those that the laws of code speak of.
pub fn blocks_agree()
    ensures blocks { laws.BlocksAgree }
    ensures ranges { laws.RangesAgree }
{}

/// A slice that is cut in two gives two slices, and two slices that touch are one.
pub fn slices_split_and_join()
    ensures split { laws.SlicesSplit }
    ensures join { laws.SlicesJoin }
{}

/// A piece is its two halves, which below 64 forks are fit for one fork more.
pub fn halves()
    ensures { laws.Halves }
{}
