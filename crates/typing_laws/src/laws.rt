//! Laws of typing. Their functions do nothing; what they ensure is the law.

ghost use Rattle.typing_laws.specs.Laws as laws;

/// The tokens of a text that are names are free names: names of the language, and none of its reserved words.
pub fn names_are_free()
    ensures { laws.NamesAreFree }
{}

/// The tree of a text is formed as the grammar says: words on so many arguments, at least one result, free names, representations in their limits.
pub fn texts_are_formed()
    ensures { laws.TextsAreFormed }
{}

/// A text of which nothing is refused has a typing: each word an operation, each binder a type.
pub fn texts_have_typings()
    ensures { laws.TextsHaveTypings }
{}

/// A text has no more tokens than bytes.
pub fn no_more_tokens_than_bytes()
    ensures { laws.NoMoreTokensThanBytes }
{}

/// The size of the tree of a text, with each loop over a set counted once more, is at most the number of its bytes.
pub fn texts_hold_their_trees()
    ensures { laws.TextsHoldTheirTrees }
{}
