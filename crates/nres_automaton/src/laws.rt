//! Laws of the automaton that reads specifications a token at a time. Their functions do nothing; what they ensure is the law.

ghost use Rattle.nres_automaton.specs.Laws as laws;

/// The automaton accepts each text of the grammar, and gives its tree.
pub fn texts_are_accepted()
    ensures file { laws.Accepts }
    ensures values { laws.AcceptsValues }
{}

/// What the automaton accepts is a text of the grammar, with the tree that it gives.
pub fn texts_alone_are_accepted()
    ensures file { laws.AcceptsOnly }
    ensures values { laws.AcceptsValuesOnly }
{}

/// The automaton refuses the first token with which no text begins, or the end where the text only ends too early; and it
/// says whether a limit alone refuses it.
pub fn refused_at_the_first_token()
    ensures file { laws.RefusesExactly }
    ensures values { laws.RefusesValuesExactly }
{}
