//! Laws of the layouts. Their functions do nothing; what they ensure is the law.

ghost use Rattle.relations.specs.Laws as laws;

/// A word represents its number.
pub fn words()
    ensures { laws.Words }
{}

/// A piece has the words of one list alone.
pub fn one_block()
    ensures { laws.OneBlock }
{}

/// An array, without its block's name, is a slice of its whole length at offset 0 that represents the same list.
pub fn arrays_and_slices()
    ensures { laws.ArraysAndSlices }
{}

/// A hash table with a state that is marked gone represents its set.
pub fn gone_state()
    ensures { laws.GoneState }
{}

/// A hash table with a key that cannot be reached from its home represents nothing.
pub fn unreached_key()
    ensures { laws.UnreachedKey }
{}

/// Layouts that no encoding makes represent their values too.
pub fn other_layouts()
    ensures { laws.OtherLayoutsSeen }
{}

/// A block whose words are not in heap order represents no multiset.
pub fn no_heap()
    ensures { laws.NoHeap }
{}

/// A block with a bit from the bound on represents no set.
pub fn no_bits()
    ensures { laws.NoBits }
{}

/// What result lines look like.
pub fn lines_seen()
    ensures { laws.LinesSeen }
{}

/// What the images that encoding gives look like.
pub fn images_seen()
    ensures { laws.ImagesSeen }
{}

/// The images of numbers, truth values, lists and multisets represent them.
pub fn images_represent()
    ensures { laws.ImagesRepresent }
{}

/// The images of a few sets represent them.
pub fn sets_encoded()
    ensures { laws.SetsEncoded }
{}

/// The images of a few maps represent them.
pub fn maps_encoded()
    ensures { laws.MapsEncoded }
{}
