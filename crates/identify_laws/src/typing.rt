//! What identification keeps of the types. The functions do nothing; what they ensure is the law.

ghost use Rattle.identify_laws.specs.Laws as laws;
ghost use Rattle.identify_laws.specs.TypingSamples as samples;

/// With operations for its words the tree of a typed text is typed, and its binders are names.
pub fn texts_are_typed()
    ensures { laws.TextsAreTyped }
{}

/// The tree with the operations that typing gives a text's words is typed exactly where typing refuses nothing of the text.
pub fn typed_exactly()
    ensures { laws.TypedExactly }
{}

/// A tree that no text has: it has a typing, and with operations for its words it is not typed.
pub fn seen()
    ensures { samples.Seen }
{}
