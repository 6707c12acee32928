//! What flattening keeps of the types. The functions do nothing; what they ensure is the law.

ghost use Rattle.flatten_laws.specs.Laws as laws;
ghost use Rattle.flatten_laws.specs.TypingSamples as samples;

/// The flat tree of a typed tree whose binders are names is typed.
pub fn typed_trees_stay_typed()
    ensures { laws.TypedTreesStayTyped }
{}

/// So is the flat tree of a typed text.
pub fn flat_trees_of_texts_are_typed()
    ensures { laws.FlatTreesOfTextsAreTyped }
{}

/// The names that small trees bind, and whether their flat trees are typed.
pub fn seen()
    ensures { samples.Seen }
{}
