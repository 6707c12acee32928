//! How large flat trees are, and how deep their blocks nest. The functions do nothing; what they ensure is the law.

ghost use Rattle.flatten_laws.specs.Laws as laws;
ghost use Rattle.flatten_laws.specs.SizeSamples as samples;

/// The need of a flat tree, 4 for each variable, 1 for each literal and 2 for each bind, is at most 15 times the size of its tree.
pub fn need_is_bounded()
    ensures { laws.NeedIsBounded }
{}

/// Where each loop over a set has variables and values for them, it is at most 9 times that size, and at most 8 times the size with each loop over a set
/// counted once more.
pub fn filled_need_less()
    ensures { laws.FilledNeedLess }
{}

/// Those of a typed tree have.
pub fn typed_are_filled()
    ensures { laws.TypedAreFilled }
{}

/// 14 times are too few for all trees, and 8 times for typed ones.
pub fn no_fewer_times()
    ensures { laws.NoFewerTimes }
{}

/// The blocks of a flat tree nest no deeper than those of its tree.
pub fn nests_no_deeper()
    ensures { laws.NestsNoDeeper }
{}

/// The flat tree of a text needs at most 8 for each byte of the text, so at most 8,388,608 where the text has at most 1,048,576 bytes; and its blocks
/// nest at most 64 deep.
pub fn texts_need()
    ensures { laws.TextsNeed }
{}

/// The needs, the sizes and the nesting of small trees.
pub fn sizes_seen()
    ensures { samples.Seen }
{}
